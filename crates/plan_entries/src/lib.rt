// Inner: one line of a plan drawn by hand entered (02, Card 12): its pair is marked as given and its amount stands on every link of its path, or its number is
// told. Only the planner's own crates call it.
#![tactic(auto)]

ghost use Rattle.std.specs.Prelude.{List};
ghost use Rattle.model.specs.Booking.{Asked};
ghost use Rattle.model.specs.declared.Pair.{Pair};
ghost use Rattle.tree.specs.Offer.{links};
ghost use Rattle.log_paths.specs.Tables.{Mapped};
ghost use Rattle.log_steps.specs.Steps.{Wanted};
ghost use Rattle.plan_entries.specs.Holding.{Roomy, Holding, PairEntered, LineEntered};

use model::{Pair, ROWS, Request, SITES};

// What a line gets: the number, 0 where it is entered, and the amount that it enters.
// Stays: theory_verdicts' `line_answer` and `entered` take a fault with the number 0 for a line that is entered, so a number is not always a refusal.
#[derive(Clone, Copy)]
pub struct Entered {
    pub number: u64,
    pub amount: u64,
}

// Enters a pair, its lower site first: 20 if it is given already.
fn enter_pair(
    n: usize,
    one: &[usize],
    two: &[usize],
    rows: &[u64; ROWS],
    p: Pair,
    given: &mut [u64; ROWS],
    load: &mut [u64; SITES],
) -> Entered
    requires { Mapped n one.now two.now rows.now × Wanted n p × Roomy given.old load.old }
    ensures { (es : List Pair) → Holding (links one.now two.now) es given.old load.old
        → PairEntered (links one.now two.now) es p given.new load.new result }
{
    let first = p.first;
    let second = p.second;
    let place = second - 1;
    if log_paths::has(given, first, place) {
        return Entered {
            number: 20,
            amount: 0,
        };
    }
    log_paths::put(given, first, place);
    let path = log_paths::between(rows, first, second);
    log_steps::raise(path, p.amount, load);
    Entered {
        number: 0,
        amount: p.amount,
    }
}

// Enters what a line asks, or tells its number.
pub fn enter(
    n: usize,
    one: &[usize],
    two: &[usize],
    rows: &[u64; ROWS],
    request: Request,
    given: &mut [u64; ROWS],
    load: &mut [u64; SITES],
) -> Entered
    requires { Mapped n one.now two.now rows.now × Asked n request × Roomy given.old load.old }
    ensures { (es : List Pair) → Holding (links one.now two.now) es given.old load.old
        → LineEntered (links one.now two.now) es request given.new load.new result }
{
    match request {
        Request::Open(e) => {
            let p = pairing_order::lower_first(e);
            enter_pair(n, one, two, rows, p, given, load)
        }
        Request::GiveUp(_) => Entered {
            number: 2,
            amount: 0,
        },
        Request::Fault(number) => Entered { number, amount: 0 },
    }
}
