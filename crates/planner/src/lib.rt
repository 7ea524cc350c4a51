// Planning a sheet.
#![tactic(auto)]

ghost use Rattle.std.specs.Prelude.{◌≡◌, ◌≤◌, length};
ghost use Rattle.model.specs.Edition.{editions};
ghost use Rattle.model.specs.Limits.{SIZE};
ghost use Rattle.lists.specs.Numbers.{look};
ghost use Rattle.theory_link.specs.TwoSites.{link_pairs};
ghost use Rattle.pairing_walk.specs.Visits.{listing};
ghost use Rattle.report.specs.Report.{report_of};
ghost use Rattle.report.specs.Shown.{CanWrite};
ghost use Rattle.report.specs.Lent.{plan_in, CanShow};
ghost use Rattle.planner.specs.Outcome.{deliver, reporter, planned_by, planned, planned_whole, answered_by, answered};
ghost use Rattle.planner.specs.Ready.{Apart};
ghost use Rattle.planner.specs.Fits.{fits};
ghost use Rattle.planner.specs.Link.{link_plan};

use model::{PLACES, Pair, Pairs, REPORT, Refusal, SITES};
use report::{LinkLists, Names, PlanLists, SiteLists};
use tree::AcceptedTree;
use tree_links::Chart;

// Whether the report of lists goes into so many bytes. Its length is measured only where there are fewer than the longest report has.
fn fits(lists: PlanLists, room: usize) -> bool
    requires { CanShow lists }
    ensures { result ≡ fits (plan_in lists.entry) room }
{
    if REPORT <= room {
        return true;
    }
    let mut none = [0u8; 1];
    let length = report::write(lists, &mut none);
    length <= room
}

// The report of lists into the buffer; a buffer too short for it keeps its bytes.
fn deliver(lists: PlanLists, report: &mut [u8]) -> Result<usize, Refusal>
    requires { CanShow lists }
    ensures told { result ≡ (deliver (report_of (plan_in lists.entry)) report.old).outcome }
    ensures left { report.new ≡ (deliver (report_of (plan_in lists.entry)) report.old).buffer }
{
    if fits(lists, report.len()) {
        let length = report::write(lists, report);
        return Ok(length);
    }
    Err(Refusal { number: 9, line: 0 })
}

// The tree of an accepted sheet, by its chart, planned.
#[inline(never)]
fn plan_charted(names: Names, chart: &Chart, report: &mut [u8]) -> Result<usize, Refusal>
    requires { Apart names chart.now.chains.tree }
    ensures told { result ≡ (planned editions names.entry.sheet.now report.old).outcome }
    ensures left { report.new ≡ (planned editions names.entry.sheet.now report.old).buffer }
{
    let tree = chart.chains.tree;
    let mut list = [0u64; SITES];
    trimming_passes::balance(
        &chart.chains,
        &chart.order,
        &chart.ends,
        tree.capacity,
        &mut list,
    );
    let trimmed = &list[..tree.one.len()];
    let mut owner = [0usize; SITES];
    let mut size = [0u64; SITES];
    let mut count = [0usize; SITES];
    cuts_groups::cuts_of(
        tree.sites,
        &chart.ends,
        tree.one,
        tree.two,
        tree.capacity,
        trimmed,
        &mut owner,
        &mut size,
        &mut count,
    );
    let made = pairing_walk::decompose(&chart.chains, &chart.ends, trimmed);
    let pairs = pairing_order::ordered(made);
    let lists = PlanLists {
        word: b"plan",
        names,
        links: LinkLists {
            one: tree.one,
            two: tree.two,
            capacity: tree.capacity,
            shown: trimmed,
        },
        sites: SiteLists {
            many: tree.sites,
            ends: &chart.ends,
            owner: &owner,
            size: &size,
            count: &count,
        },
        before: b"",
        pairs: &pairs,
    };
    deliver(lists, report)
}

// The tree of an accepted sheet, by its chart, planned in whole circuits.
#[inline(never)]
fn whole_charted(names: Names, chart: &Chart, report: &mut [u8]) -> Result<usize, Refusal>
    requires { Apart names chart.now.chains.tree }
    ensures told { result ≡ (planned_whole editions names.entry.sheet.now report.old).outcome }
    ensures left { report.new ≡ (planned_whole editions names.entry.sheet.now report.old).buffer }
{
    let tree = chart.chains.tree;
    let mut list = [0u64; SITES];
    let mut labels = [0u16; PLACES];
    let odd = whole_loads::solve(
        tree.sites,
        &chart.order,
        &chart.ends,
        tree.one,
        tree.two,
        tree.capacity,
        &mut list,
        &mut labels,
    );
    let loads = &list[..tree.one.len()];
    let mut owner = [0usize; SITES];
    let mut size = [0u64; SITES];
    let mut count = [0usize; SITES];
    cuts_groups::sets_of(
        tree.sites,
        &chart.ends,
        tree.one,
        tree.two,
        tree.capacity,
        &labels,
        &mut owner,
        &mut size,
        &mut count,
    );
    let made = pairing_walk::decompose(&chart.chains, &chart.ends, loads);
    let pairs = pairing_order::ordered(made);
    let mut line = [0u8; 32];
    let length = report::write_odd(odd, &mut line);
    let lists = PlanLists {
        word: b"whole",
        names,
        links: LinkLists {
            one: tree.one,
            two: tree.two,
            capacity: tree.capacity,
            shown: loads,
        },
        sites: SiteLists {
            many: tree.sites,
            ends: &chart.ends,
            owner: &owner,
            size: &size,
            count: &count,
        },
        before: &line[..length],
        pairs: &pairs,
    };
    deliver(lists, report)
}

// The one pair of a network of two sites, of twice the link's capacity; none for capacity 0 (01: with two sites only).
fn pair_of(capacity: u64) -> Pairs
    requires { capacity ≤ SIZE }
    ensures { result ≡ listing (link_pairs capacity) }
{
    let none = Pair {
        first: 0,
        second: 0,
        amount: 0,
    };
    let mut list = [none; SITES];
    if capacity == 0 {
        return Pairs { list, count: 0 };
    }
    list[0] = Pair {
        first: 1,
        second: 2,
        amount: 2 * capacity,
    };
    Pairs { list, count: 1 }
}

// The report of a tree of two sites into the buffer: the link carries its capacity, each site is in the set of its own, and there is one pair.
fn deliver_link(
    word: &[u8],
    before: &[u8],
    names: Names,
    tree: AcceptedTree,
    report: &mut [u8],
) -> Result<usize, Refusal>
    requires { (1 ≤ length tree.capacity.now) × (look tree.capacity.now 0 ≤ SIZE)
        × CanWrite names.sheet.now names.start.now names.end.now
        (link_plan word.now before.now names.sheet.now names.start.now names.end.now tree.one.now tree.two.now tree.capacity.now)
        (listing (link_pairs (look tree.capacity.now 0))) }
    ensures told { result ≡ (deliver (report_of
        (link_plan word.now before.now names.entry.sheet.now names.entry.start.now names.entry.end.now tree.entry.one.now tree.entry.two.now
        tree.entry.capacity.now)) report.old).outcome }
    ensures left { report.new ≡ (deliver (report_of
        (link_plan word.now before.now names.entry.sheet.now names.entry.start.now names.entry.end.now tree.entry.one.now tree.entry.two.now
        tree.entry.capacity.now)) report.old).buffer }
{
    let c = tree.capacity[0];
    let mut ends = [0u8; PLACES];
    ends[1] = 1;
    ends[2] = 1;
    let pairs = pair_of(c);
    let lists = PlanLists {
        word,
        names,
        links: LinkLists {
            one: tree.one,
            two: tree.two,
            capacity: tree.capacity,
            shown: tree.capacity,
        },
        sites: SiteLists {
            many: 2,
            ends: &ends,
            owner: &[1, 2],
            size: &[c, c],
            count: &[1, 1],
        },
        before,
        pairs: &pairs,
    };
    deliver(lists, report)
}

// The tree of an accepted sheet of two sites, planned in whole circuits or in halves.
fn plan_link(
    whole: bool,
    names: Names,
    tree: AcceptedTree,
    buf: &mut [u8],
) -> Result<usize, Refusal>
    requires { Apart names tree × (tree.sites ≡ 2) }
    ensures told { result ≡ (planned_by (reporter whole) editions names.entry.sheet.now buf.old).outcome }
    ensures left { buf.new ≡ (planned_by (reporter whole) editions names.entry.sheet.now buf.old).buffer }
{
    if whole {
        return deliver_link(b"whole", b"Q\t0\n", names, tree, buf);
    }
    deliver_link(b"plan", b"", names, tree, buf)
}

// The chart of a tree, made in a frame of its own, which is gone before the tree is planned.
#[inline(never)]
fn chart_of(tree: AcceptedTree<'_>) -> Chart<'_>
    ensures { result.chains.tree ≡ tree.entry }
{
    Chart::of(tree)
}

// The tree of an accepted sheet, planned in whole circuits or in halves; it is charted once.
fn plan_tree(
    whole: bool,
    names: Names,
    tree: AcceptedTree,
    report: &mut [u8],
) -> Result<usize, Refusal>
    requires { Apart names tree }
    ensures told { result ≡ (planned_by (reporter whole) editions names.entry.sheet.now report.old).outcome }
    ensures left { report.new ≡ (planned_by (reporter whole) editions names.entry.sheet.now report.old).buffer }
{
    if tree.sites == 2 {
        return plan_link(whole, names, tree, report);
    }
    let chart = chart_of(tree);
    if whole {
        return whole_charted(names, &chart, report);
    }
    plan_charted(names, &chart, report)
}

// Stays: here and below `whole` is a flag, since this function is offered with it, and `reporter` tells what it means.
// Plans a sheet in whole circuits or in halves: writes that report into the buffer and tells its length, or refuses the sheet and leaves the buffer as it was.
pub fn report_on(whole: bool, sheet: &[u8], report: &mut [u8]) -> Result<usize, Refusal>
    ensures told { result ≡ (planned_by (reporter whole) editions sheet.now report.old).outcome }
    ensures left { report.new ≡ (planned_by (reporter whole) editions sheet.now report.old).buffer }
{
    match &sheet::read(sheet) {
        Ok(network) => {
            let names = Names {
                sheet,
                start: &network.start,
                end: &network.end,
            };
            plan_tree(whole, names, listed_trees::tree_of(network), report)
        }
        Err(refusal) => Err(*refusal),
    }
}

// Plans a sheet in halves, with the report headed `plan`.
pub fn plan(sheet: &[u8], report: &mut [u8]) -> Result<usize, Refusal>
    ensures told { result ≡ (planned editions sheet.now report.old).outcome }
    ensures left { report.new ≡ (planned editions sheet.now report.old).buffer }
{
    report_on(false, sheet, report)
}

// Plans a sheet in whole circuits, with the report headed `whole` (02, Card 2).
pub fn whole(sheet: &[u8], report: &mut [u8]) -> Result<usize, Refusal>
    ensures told { result ≡ (planned_whole editions sheet.now report.old).outcome }
    ensures left { report.new ≡ (planned_whole editions sheet.now report.old).buffer }
{
    report_on(true, sheet, report)
}

// The answer to a sheet in whole circuits or in halves, as the program prints it: the report, or the line of the refusal, from the start of the buffer, and
// its length.
pub fn answer_on(whole: bool, sheet: &[u8], buf: &mut [u8]) -> usize
    ensures told { result ≡ (answered_by (reporter whole) editions sheet.now buf.old).length }
    ensures left { buf.new ≡ (answered_by (reporter whole) editions sheet.now buf.old).buffer }
    ensures within { 50 ≤ length buf.old → result ≤ length buf.new }
{
    match report_on(whole, sheet, buf) {
        Ok(length) => length,
        Err(refusal) => report::write_refusal(refusal.number, refusal.line, buf),
    }
}

// The answer to a sheet in halves.
pub fn answer(sheet: &[u8], buf: &mut [u8]) -> usize
    ensures told { result ≡ (answered editions sheet.now buf.old).length }
    ensures left { buf.new ≡ (answered editions sheet.now buf.old).buffer }
    ensures within { 50 ≤ length buf.old → result ≤ length buf.new }
{
    answer_on(false, sheet, buf)
}
