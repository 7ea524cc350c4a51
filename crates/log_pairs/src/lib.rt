// Inner: the open pairs of a booking log (02, Card 6) in arrays, each pair as one number: one is found, grows, or shrinks. Only the planner's own crates call
// it.
#![tactic(auto)]

ghost use Rattle.std.specs.Prelude.{◌≡◌, [], ◌+◌, ◌≤◌, min};
ghost use Rattle.lists.specs.Numbers.{is, look, sum};
ghost use Rattle.model.specs.Limits.{OPEN, SITES};
ghost use Rattle.model.specs.Booking.{grow, shrink};
ghost use Rattle.log_pairs.specs.Arrays.{packed, BLOCK, pairs_of, Held, FoundFrom, Found, MayGrow, Shrinking};

use model::{OPEN, PLACES};

// How many pairs are looked at together.
const BLOCK: usize = 16;

// The pair a, b as one number.
fn packed(a: usize, b: usize) -> u32
    requires { (a ≤ SITES) × (b ≤ SITES) }
    ensures { result ≡ packed a b }
{
    (a * PLACES + b) as u32
}

// 1 if one of the BLOCK places from one on has a number, 0 if not; they are looked at without a jump for each.
fn in_block(key: u32, at: usize, pairs: &[u32; OPEN]) -> u32
    requires { at + BLOCK ≤ OPEN }
    ensures { result ≡ min 1 (sum BLOCK (λ i. is (look pairs.now (at + i)) key)) }
{
    let mut seen: u32 = 0;
    for i in 0..BLOCK {
        if pairs[at + i] == key {
            seen = 1;
        }
    }
    seen
}

// The first of `count` places, from one on, that has a number.
fn first_from(key: u32, at: usize, count: usize, pairs: &[u32; OPEN]) -> Option<usize>
    requires { (at ≤ count) × (count ≤ OPEN) }
    ensures { FoundFrom pairs.now key at count result }
{
    for i in at..count {
        if pairs[i] == key {
            return Some(i);
        }
    }
    None
}

// The open pairs: each of the first `count` places holds a pair as one number and its amount, and zeros stand behind them.
#[derive(Clone, Copy)]
pub struct OpenPairs {
    pub pairs: [u32; OPEN],
    pub amounts: [u64; OPEN],
    pub count: usize,
}

impl OpenPairs {
    // No pair is open.
    pub fn new() -> Self
        ensures { Held [] result }
    {
        OpenPairs {
            pairs: [0u32; OPEN],
            amounts: [0u64; OPEN],
            count: 0,
        }
    }

    // The place of the pair a, b, if it is open.
    pub fn find(&self, a: usize, b: usize) -> Option<usize>
        requires { (a ≤ SITES) × (b ≤ SITES) × (self.now.count ≤ OPEN) }
        ensures { Found self.now.pairs a b self.now.count result }
    {
        let key = packed(a, b);
        let mut at = 0;
        // Stays: a block is looked at as a whole, without a jump for each place, which a search that stops at the first place is not.
        while at + BLOCK <= self.count {
            if in_block(key, at, &self.pairs) != 0 {
                return first_from(key, at, self.count, &self.pairs);
            }
            at += BLOCK;
        }
        first_from(key, at, self.count, &self.pairs)
    }

    // x more for the pair a, b, whose place is given if it is open.
    pub fn grow(&mut self, a: usize, b: usize, x: u64, place: Option<usize>)
        requires { MayGrow self.old a b x place }
        ensures { Held (grow a b x (pairs_of self.old)) self.new }
    {
        if let Some(k) = place {
            self.amounts[k] += x;
            return;
        }
        let k = self.count;
        self.pairs[k] = packed(a, b);
        self.amounts[k] = x;
        self.count += 1;
    }

    // x less for the pair a, b, whose place is k: where nothing is left the last pair takes its place.
    pub fn shrink(&mut self, a: usize, b: usize, x: u64, k: usize)
        requires { Shrinking self.old a b x k }
        ensures { Held (shrink a b x (pairs_of self.old)) self.new }
    {
        if x < self.amounts[k] {
            self.amounts[k] -= x;
            return;
        }
        let last = self.count - 1;
        self.pairs[k] = self.pairs[last];
        self.amounts[k] = self.amounts[last];
        self.pairs[last] = 0;
        self.amounts[last] = 0;
        self.count = last;
    }
}
