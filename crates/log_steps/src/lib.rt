// Inner: one request of a booking log answered (02, Card 6): the loads of the links on its path and the open pairs are moved, or nothing is.
// Only the planner's own crates call it.
#![tactic(auto)]

ghost use Rattle.std.specs.Prelude.{◌≡◌};
ghost use Rattle.lists.specs.Numbers.{look};
ghost use Rattle.model.specs.Booking.{Asked};
ghost use Rattle.tree.specs.Offer.{links};
ghost use Rattle.tree.specs.Steps.{Tells};
ghost use Rattle.log_pairs.specs.Arrays.{pairs_of};
ghost use Rattle.log_steps.specs.Loads.{Measured, Passing, Raising, Lowering, raised, lowered};
ghost use Rattle.log_steps.specs.Steps.{Given, Standing, Answered, Wanted, Opened, GivenUp};

use log_pairs::OpenPairs;
use model::{OPEN, Pair, ROWS, Request, SITES};
use tree_sets::Set;

// Whether a link on a path would be overfilled by x more: its load would pass twice its capacity.
fn overfills(path: Set, x: u64, capacity: &[u64], load: &[u64; SITES]) -> bool
    requires { Measured path x capacity.now load.now }
    ensures { Tells result (Passing path x capacity.now load.now) }
{
    for link in path.members() {
        if 2 * capacity[link] < load[link] + x {
            return true;
        }
    }
    false
}

// x more on every link of a path.
pub fn raise(path: Set, x: u64, load: &mut [u64; SITES])
    requires { Raising path x load.old }
    ensures { load.new ≡ raised path x load.old }
{
    for link in path.members() {
        load[link] += x;
    }
}

// x less on every link of a path.
fn lower(path: Set, x: u64, load: &mut [u64; SITES])
    requires { Lowering path x load.old }
    ensures { load.new ≡ lowered path x load.old }
{
    for link in path.members() {
        load[link] -= x;
    }
}

// Opens a pair, its lower site first: 15 if a link on its path would be overfilled, then 16 if it is not open and OPEN others are.
fn open(
    n: usize,
    one: &[usize],
    two: &[usize],
    capacity: &[u64],
    rows: &[u64; ROWS],
    p: Pair,
    pairs: &mut OpenPairs,
    load: &mut [u64; SITES],
) -> u64
    requires { Given n one.now two.now capacity.now rows.now × Wanted n p
        × Standing (links one.now two.now) n (look capacity.now) pairs.old load.old }
    ensures { Opened (links one.now two.now) (look capacity.now)
        (pairs_of pairs.old) p pairs.new load.new result }
{
    let path = log_paths::between(rows, p.first, p.second);
    let full = overfills(path, p.amount, capacity, load);
    let place = pairs.find(p.first, p.second);
    if full {
        return 15;
    }
    if place.unwrap_or(pairs.count) == OPEN {
        return 16;
    }
    raise(path, p.amount, load);
    pairs.grow(p.first, p.second, p.amount, place);
    0
}

// Gives up an amount of a pair, its lower site first: 14 if less than that is open.
fn give_up(
    n: usize,
    one: &[usize],
    two: &[usize],
    capacity: &[u64],
    rows: &[u64; ROWS],
    p: Pair,
    pairs: &mut OpenPairs,
    load: &mut [u64; SITES],
) -> u64
    requires { Given n one.now two.now capacity.now rows.now × Wanted n p
        × Standing (links one.now two.now) n (look capacity.now) pairs.old load.old }
    ensures { GivenUp (links one.now two.now) (look capacity.now)
        (pairs_of pairs.old) p pairs.new load.new result }
{
    let Some(place) = pairs.find(p.first, p.second) else {
        return 14;
    };
    if pairs.amounts[place] < p.amount {
        return 14;
    }
    let path = log_paths::between(rows, p.first, p.second);
    lower(path, p.amount, load);
    pairs.shrink(p.first, p.second, p.amount, place);
    0
}

// Answers a request over a tree, by its table of paths; the open pairs and the loads of the links are moved where the answer is 0.
pub fn step(
    n: usize,
    one: &[usize],
    two: &[usize],
    capacity: &[u64],
    rows: &[u64; ROWS],
    request: Request,
    pairs: &mut OpenPairs,
    load: &mut [u64; SITES],
) -> u64
    requires { Given n one.now two.now capacity.now rows.now × Asked n request
        × Standing (links one.now two.now) n (look capacity.now) pairs.old load.old }
    ensures { Answered (links one.now two.now) (look capacity.now)
        (pairs_of pairs.old) request pairs.new load.new result }
{
    match request {
        Request::Open(e) => {
            let more = pairing_order::lower_first(e);
            open(n, one, two, capacity, rows, more, pairs, load)
        }
        Request::GiveUp(e) => {
            let less = pairing_order::lower_first(e);
            give_up(n, one, two, capacity, rows, less, pairs, load)
        }
        Request::Fault(number) => number,
    }
}
