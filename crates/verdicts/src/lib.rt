// A plan drawn by hand judged over a sheet (document 02, Card 12): its total, and whether it is one of the largest.
#![tactic(auto)]

ghost use Rattle.std.specs.Prelude.{true, ◌≡◌, [], ◌≤◌, length};
ghost use Rattle.lists.specs.Numbers.{look};
ghost use Rattle.model.specs.Limits.{PLANLINES};
ghost use Rattle.model.specs.Edition.{editions};
ghost use Rattle.model.specs.Flows.{ends};
ghost use Rattle.theory_verdicts.specs.HandPlan.{account};
ghost use Rattle.tree.specs.Offer.{links};
ghost use Rattle.sheet_names.specs.Names.{ranges, Distinct};
ghost use Rattle.planner.specs.Taken.{Listed};
ghost use Rattle.log_requests.specs.Requests.{lines, requests};
ghost use Rattle.verdicts.specs.Outcome.{verdict, judged};

use model::{PLANBYTES, PLANLINES, SITES, TextRefusal};
use sheet::Lists;
use tree::AcceptedTree;
use tree_links::Chains;

// The verdict on a plan: its total in halves, and whether no fitting plan has a greater one.
#[derive(Clone, Copy, PartialEq, Eq, Debug)]
pub struct Verdict {
    pub total: u64,
    pub largest: bool,
}

// A plan judged over a tree whose sites have different names: the table of names, the ends and the table of paths are made once.
fn judge_tree(
    sheet: &[u8],
    starts: &[usize; SITES],
    stops: &[usize; SITES],
    tree: AcceptedTree,
    plan: &[u8],
) -> Result<Verdict, TextRefusal>
    requires { Distinct sheet.now (ranges starts.now stops.now 0 tree.sites) × (length (lines plan.now) ≤ PLANLINES) }
    ensures { result ≡ verdict (links tree.entry.one.now tree.entry.two.now) tree.entry.sites
        (look (ends (links tree.entry.one.now tree.entry.two.now) tree.entry.sites tree.entry.marks.now)) tree.entry.capacity.now
        (account 1 [] (requests true sheet.now (ranges starts.now stops.now 0 tree.entry.sites)
        (links tree.entry.one.now tree.entry.two.now)
        (look (ends (links tree.entry.one.now tree.entry.two.now) tree.entry.sites tree.entry.marks.now)) plan.now)) }
{
    let n = tree.sites;
    let table = sheet_names::index(sheet, starts, stops, n);
    let ends = Chains::of(tree).ends();
    let outer = tree_links::unmarked(tree.marks);
    let rows = log_paths::paths(n, tree.one, tree.two, tree.marks, tree.capacity);
    let accounted = plan_accounts::account(
        sheet, starts, stops, n, &table, &ends, outer, tree.one, tree.two, &rows, plan,
    );
    if accounted.number != 0 {
        return Err(TextRefusal {
            text: 2,
            number: accounted.number,
            line: accounted.line,
        });
    }
    if plan_accounts::overloaded(tree.capacity, &accounted.load) {
        return Err(TextRefusal {
            text: 2,
            number: 21,
            line: 0,
        });
    }
    let most = plan_accounts::largest_total(tree);
    Ok(Verdict {
        total: accounted.total,
        largest: accounted.total == most,
    })
}

// A plan judged over the network of an accepted sheet.
fn judge_network(sheet: &[u8], network: &Lists, plan: &[u8]) -> Result<Verdict, TextRefusal>
    requires { Listed sheet.now network.now }
    ensures { result ≡ judged editions sheet.now plan.now }
{
    let refusal = TextRefusal {
        text: 2,
        number: 1,
        line: 0,
    };
    if plan.len() > PLANBYTES {
        return Err(refusal);
    }
    let too_many = log_requests::count_lines(plan) > PLANLINES;
    if too_many {
        return Err(refusal);
    }
    let tree = listed_trees::tree_of(network);
    judge_tree(sheet, &network.start, &network.end, tree, plan)
}

// Judges a plan drawn by hand over a sheet: tells its total in halves and whether no fitting plan, however finely cut, has a greater one; or refuses the sheet
// or the plan.
pub fn judge(sheet: &[u8], plan: &[u8]) -> Result<Verdict, TextRefusal>
    ensures { result ≡ judged editions sheet.now plan.now }
{
    match &sheet::read(sheet) {
        Ok(network) => judge_network(sheet, network, plan),
        Err(refusal) => Err(refusal.in_text(1)),
    }
}
