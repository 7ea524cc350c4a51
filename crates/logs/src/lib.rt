// A booking log replayed over a sheet (document 02, Cards 6 and 7): each line gets one answer.
#![tactic(auto)]

ghost use Rattle.std.specs.Prelude.{true, false, ◌≡◌, [], ◌++◌, ◌≤◌, length, drop};
ghost use Rattle.lists.specs.Numbers.{look};
ghost use Rattle.model.specs.Edition.{editions};
ghost use Rattle.model.specs.Flows.{ends};
ghost use Rattle.model.specs.Booking.{answers};
ghost use Rattle.theory_trees.specs.Leaves.{Outer};
ghost use Rattle.tree.specs.Offer.{links};
ghost use Rattle.log_steps.specs.Steps.{Given};
ghost use Rattle.sheet_names.specs.Names.{ranges, Distinct, Indexes};
ghost use Rattle.planner.specs.Taken.{Listed};
ghost use Rattle.log_requests.specs.Requests.{lines, requests};
ghost use Rattle.logs.specs.Outcome.{replayed};

use log_pairs::OpenPairs;
use log_requests::Text;
use model::{LOGBYTES, LOGLINES, PLACES, ROWS, SITES, TextRefusal};
use sheet::Lists;
use sheet_names::TABLE;
use tree::AcceptedTree;
use tree_links::Chains;

// The answers to the lines of a log, into the front of a list with a place for each.
#[inline(never)]
fn answer_lines(
    sheet: &[u8],
    starts: &[usize; SITES],
    stops: &[usize; SITES],
    n: usize,
    table: &[u16; TABLE],
    ends: &[u8; PLACES],
    outer: bool,
    one: &[usize],
    two: &[usize],
    capacity: &[u64],
    rows: &[u64; ROWS],
    log: &[u8],
    list: &mut [u64],
)
    requires { Given n one.now two.now capacity.now rows.now × Indexes sheet.now (ranges starts.now stops.now 0 n) table.now
        × (length (lines log.now) ≤ length list.old) × (outer ≡ true → Outer (links one.now two.now) n (look ends.now)) }
    ensures { list.new ≡ answers (links one.now two.now) (look capacity.now) []
        (requests false sheet.now (ranges starts.now stops.now 0 n)
        (links one.now two.now) (look ends.now) log.now)
        ++ drop (length (lines log.now)) list.old }
{
    let mut pairs = OpenPairs::new();
    let mut load = [0u64; SITES];
    let mut at = 0;
    let mut i = 0;
    // Stays: the next offset is where a line ends, so there is no range to go over.
    while text_lines::has_line(log, at) {
        let line = text_lines::line(log, at);
        let request = log_requests::request_at(
            Text::Log,
            sheet,
            starts,
            stops,
            n,
            table,
            one,
            two,
            rows,
            ends,
            outer,
            log,
            line,
            at,
        );
        list[i] = log_steps::step(n, one, two, capacity, rows, request, &mut pairs, &mut load);
        at = text_lines::rest(log, at + line.len());
        i += 1;
    }
}

// The answers to the lines of a log over a tree whose sites have different names, into the front of a list with a place for each: the table of names, the
// ends and the table of paths are made once.
fn answer_tree(
    sheet: &[u8],
    starts: &[usize; SITES],
    stops: &[usize; SITES],
    tree: AcceptedTree,
    log: &[u8],
    list: &mut [u64],
)
    requires { Distinct sheet.now (ranges starts.now stops.now 0 tree.sites) × (length (lines log.now) ≤ length list.old) }
    ensures { list.new ≡ answers (links tree.entry.one.now tree.entry.two.now) (look tree.entry.capacity.now) []
        (requests false sheet.now (ranges starts.now stops.now 0 tree.entry.sites)
        (links tree.entry.one.now tree.entry.two.now)
        (look (ends (links tree.entry.one.now tree.entry.two.now) tree.entry.sites tree.entry.marks.now)) log.now)
        ++ drop (length (lines log.now)) list.old }
{
    let n = tree.sites;
    let table = sheet_names::index(sheet, starts, stops, n);
    let ends = Chains::of(tree).ends();
    let outer = tree_links::unmarked(tree.marks);
    let rows = log_paths::paths(n, tree.one, tree.two, tree.marks, tree.capacity);
    answer_lines(
        sheet,
        starts,
        stops,
        n,
        &table,
        &ends,
        outer,
        tree.one,
        tree.two,
        tree.capacity,
        &rows,
        log,
        list,
    );
}

// A log replayed over the network of an accepted sheet.
fn replay_network(
    sheet: &[u8],
    network: &Lists,
    log: &[u8],
    list: &mut [u64],
) -> Result<usize, TextRefusal>
    requires { Listed sheet.now network.now }
    ensures told { result ≡ (replayed editions sheet.now log.now list.old).outcome }
    ensures left { list.new ≡ (replayed editions sheet.now log.now list.old).list }
{
    let refusal = TextRefusal {
        text: 2,
        number: 1,
        line: 0,
    };
    if log.len() > LOGBYTES {
        return Err(refusal);
    }
    let count = log_requests::count_lines(log);
    if count > LOGLINES {
        return Err(refusal);
    }
    if count > list.len() {
        return Err(TextRefusal {
            text: 2,
            number: 9,
            line: 0,
        });
    }
    let tree = listed_trees::tree_of(network);
    answer_tree(sheet, &network.start, &network.end, tree, log, list);
    Ok(count)
}

// Replays a log over a sheet: writes the answer to each line into the front of a lent list and tells the number of lines; or refuses the sheet, the log, or a
// list with fewer places than lines, and leaves the list as it was.
pub fn replay(sheet: &[u8], log: &[u8], answers: &mut [u64]) -> Result<usize, TextRefusal>
    ensures told { result ≡ (replayed editions sheet.now log.now answers.old).outcome }
    ensures left { answers.new ≡ (replayed editions sheet.now log.now answers.old).list }
{
    match &sheet::read(sheet) {
        Ok(network) => replay_network(sheet, network, log, answers),
        Err(refusal) => Err(refusal.in_text(1)),
    }
}
