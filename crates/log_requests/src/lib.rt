// Inner: what the lines of a text ask that is read with a sheet, a booking log or a plan drawn by hand (document 02, Cards 6 and 12). Only the planner's own
// crates call it.
#![tactic(auto)]

ghost use Rattle.std.specs.Prelude.{true, ◌≡◌, ◌≤◌, length};
ghost use Rattle.lists.specs.Numbers.{look};
ghost use Rattle.model.specs.Limits.{SITES};
ghost use Rattle.model.specs.Flows.{ends};
ghost use Rattle.theory_trees.specs.Leaves.{Outer};
ghost use Rattle.tree.specs.Offer.{links};
ghost use Rattle.tree_links.specs.Chains.{Placed};
ghost use Rattle.log_paths.specs.Tables.{Mapped};
ghost use Rattle.text_lines.specs.Lines.{line_at};
ghost use Rattle.sheet_names.specs.Names.{ranges, Indexes};
ghost use Rattle.log_requests.specs.Requests.{is_plan, lines, line_of, between, request_at};
ghost use Rattle.log_requests.specs.RequestLaws.{Named};

use log_lines::Booking;
use model::{PLACES, Pair, ROWS, Request, SITES};
use sheet_names::TABLE;

// The number of lines of a text.
pub fn count_lines(text: &[u8]) -> usize
    ensures { result ≡ length (lines text.now) }
{
    let mut at = 0;
    let mut count = 0;
    // Stays: the next offset is where a line ends, so there is no range to go over.
    while text_lines::has_line(text, at) {
        at = text_lines::rest(text, at);
        count += 1;
    }
    count
}

// A text that is read with a sheet: a booking log, or a plan drawn by hand.
#[derive(Clone, Copy, PartialEq, Eq, Debug)]
pub enum Text {
    Log,
    Plan,
}

// What the line at an offset of a text asks, or the number of its refusal: 2 where no byte 10 ends it.
fn line_of(kind: Text, text: &[u8], line: &[u8], at: usize) -> Result<Booking, u64>
    requires { (at ≤ length text.now) × (line.now ≡ line_at text.now at) }
    ensures { result ≡ line_of (is_plan kind) text.now at }
{
    if at + line.len() >= text.len() {
        return Err(2);
    }
    match kind {
        Text::Log => log_lines::classify(line),
        Text::Plan => log_lines::plan_line(line),
    }
}

// An amount asked for between what the look-ups of two names found, by the links, the table of paths and the ends: fault 6 unless they are two different
// ends with no other end on their path. `outer` is told where each end has one link.
fn between(
    n: usize,
    one: &[usize],
    two: &[usize],
    rows: &[u64; ROWS],
    ends: &[u8; PLACES],
    outer: bool,
    opens: bool,
    amount: u64,
    from: Option<usize>,
    to: Option<usize>,
) -> Request
    requires { Mapped n one.now two.now rows.now × Named n from × Named n to
        × (outer ≡ true → Outer (links one.now two.now) n (look ends.now)) }
    ensures { result ≡ between (links one.now two.now) (look ends.now) opens amount from to }
{
    let Some(first) = from else {
        return Request::Fault(6);
    };
    let Some(second) = to else {
        return Request::Fault(6);
    };
    if !log_ends::free(n, one, two, rows, ends, outer, first, second) {
        return Request::Fault(6);
    }
    let pair = Pair {
        first,
        second,
        amount,
    };
    if opens {
        return Request::Open(pair);
    }
    Request::GiveUp(pair)
}

// What the line at an offset of a text asks, over the names, the links and the ends of a network.
pub fn request_at(
    kind: Text,
    sheet: &[u8],
    starts: &[usize; SITES],
    stops: &[usize; SITES],
    n: usize,
    table: &[u16; TABLE],
    one: &[usize],
    two: &[usize],
    rows: &[u64; ROWS],
    ends: &[u8; PLACES],
    outer: bool,
    text: &[u8],
    line: &[u8],
    at: usize,
) -> Request
    requires { Mapped n one.now two.now rows.now × Indexes sheet.now (ranges starts.now stops.now 0 n) table.now
        × (at ≤ length text.now) × (line.now ≡ line_at text.now at)
        × (outer ≡ true → Outer (links one.now two.now) n (look ends.now)) }
    ensures { result ≡ request_at (is_plan kind) sheet.now (ranges starts.now stops.now 0 n)
        (links one.now two.now) (look ends.now) text.now at }
{
    // Stays: a line at fault is a request of its own, since the theorems of theory_log, theory_verdicts, logs and verdicts answer the lines of a text one by one.
    let booking = match line_of(kind, text, line, at) {
        Ok(booking) => booking,
        Err(number) => return Request::Fault(number),
    };
    let first = sheet_names::part(line, booking.start, booking.end);
    let second = sheet_names::part(line, booking.start2, booking.end2);
    let from = sheet_names::find(sheet, starts, stops, n, table, first);
    let to = sheet_names::find(sheet, starts, stops, n, table, second);
    between(
        n,
        one,
        two,
        rows,
        ends,
        outer,
        booking.opens,
        booking.amount,
        from,
        to,
    )
}
