// Inner: the account of a plan drawn by hand over a tree (02, Card 12): its lines entered up to the lowest faulty one, its loads against the capacities, and the
// largest total that a plan can have. Only the planner's own crates call it.
#![tactic(auto)]

ghost use Rattle.std.specs.Prelude.{true, ◌≡◌, [], ◌≤◌, length};
ghost use Rattle.lists.specs.Numbers.{look};
ghost use Rattle.model.specs.Limits.{PLANLINES};
ghost use Rattle.model.specs.Flows.{ends};
ghost use Rattle.theory_trees.specs.Leaves.{Outer};
ghost use Rattle.theory_verdicts.specs.HandPlan.{account, largest_total};
ghost use Rattle.tree.specs.Offer.{links};
ghost use Rattle.tree.specs.Steps.{Tells};
ghost use Rattle.log_paths.specs.Tables.{Mapped};
ghost use Rattle.sheet_names.specs.Names.{ranges, Indexes};
ghost use Rattle.log_requests.specs.Requests.{lines, requests};
ghost use Rattle.plan_accounts.specs.Progress.{Comes};
ghost use Rattle.plan_accounts.specs.Loaded.{Sized, Loaded};

use log_requests::Text;
use model::{LINKS, PLACES, ROWS, SITES};
use sheet_names::TABLE;
use tree::AcceptedTree;
use tree_links::Chart;

// What the lines of a plan come to: the number and the line of the lowest fault; or number 0, the total and the load of each link.
#[derive(Clone, Copy)]
pub struct Accounted {
    pub number: u64,
    pub line: usize,
    pub total: u64,
    pub load: [u64; SITES],
}

// Enters the lines of a plan one by one, up to the lowest faulty one.
#[inline(never)]
pub fn account(
    sheet: &[u8],
    starts: &[usize; SITES],
    stops: &[usize; SITES],
    n: usize,
    table: &[u16; TABLE],
    ends: &[u8; PLACES],
    outer: bool,
    one: &[usize],
    two: &[usize],
    rows: &[u64; ROWS],
    plan: &[u8],
) -> Accounted
    requires { Mapped n one.now two.now rows.now × Indexes sheet.now (ranges starts.now stops.now 0 n) table.now
        × (length (lines plan.now) ≤ PLANLINES) × (outer ≡ true → Outer (links one.now two.now) n (look ends.now)) }
    ensures { Comes (links one.now two.now)
        (account 1 [] (requests true sheet.now (ranges starts.now stops.now 0 n)
        (links one.now two.now) (look ends.now) plan.now)) result }
{
    let mut given = [0u64; ROWS];
    let mut load = [0u64; SITES];
    let mut total: u64 = 0;
    let mut at = 0;
    let mut i = 1;
    // Stays: the next offset is where a line ends, so there is no range to go over.
    while text_lines::has_line(plan, at) {
        let line = text_lines::line(plan, at);
        let request = log_requests::request_at(
            Text::Plan,
            sheet,
            starts,
            stops,
            n,
            table,
            one,
            two,
            rows,
            ends,
            outer,
            plan,
            line,
            at,
        );
        let entered = plan_entries::enter(n, one, two, rows, request, &mut given, &mut load);
        if entered.number != 0 {
            return Accounted {
                number: entered.number,
                line: i,
                total: 0,
                load,
            };
        }
        total += entered.amount;
        at = text_lines::rest(plan, at + line.len());
        i += 1;
    }
    Accounted {
        number: 0,
        line: 0,
        total,
        load,
    }
}

// Whether some load is above twice the capacity of its link.
pub fn overloaded(capacity: &[u64], load: &[u64; SITES]) -> bool
    requires { Sized capacity.now }
    ensures { Tells result (Loaded capacity.now load.now) }
{
    for j in 0..capacity.len() {
        if 2 * capacity[j] < load[j] {
            return true;
        }
    }
    false
}

// The largest total of a tree in halves: the sum of its trimmed sizes at the ends.
#[inline(never)]
pub fn largest_total(tree: AcceptedTree) -> u64
    ensures { result ≡ largest_total (links tree.entry.one.now tree.entry.two.now) tree.entry.sites
        (look (ends (links tree.entry.one.now tree.entry.two.now) tree.entry.sites tree.entry.marks.now)) tree.entry.capacity.now }
{
    let mut trimmed = [0u64; LINKS];
    region_sizes::trim(&Chart::of(tree), tree.capacity, 0, &mut trimmed)
}
