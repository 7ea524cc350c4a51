// A set of numbers below SITES as words of 64 bits: members are counted by ones and walked by trailing zeros.
#![tactic(auto)]

ghost use Rattle.std.specs.Prelude.{◌≡◌, ◌≢◌, List, ℕ, ◌+◌, ◌-◌, ◌*◌, ◌≤◌, ◌<◌};
ghost use Rattle.std.specs.Iterator.{YieldsFirst, item_count};
ghost use Rattle.model.specs.Limits.{SITES, WORDS};
ghost use Rattle.lists.specs.Numbers.{sum};
ghost use Rattle.tree_sets.specs.Members.{member, adding, first_from, members_from};
ghost use Rattle.tree_sets.specs.Walks.{within, still, lowest, Standing, Walked};

use model::{SITES, WORDS};
use std::marker::Model;

// A set of numbers below SITES: m is the bit m % 64 of the word m / 64.
#[derive(Clone, Copy)]
pub struct Set {
    pub words: [u64; WORDS],
}

// The members of a set that are still to come, from the lowest up: those that are left of one word, and those of the words behind it.
#[derive(Clone, Drop)]
pub struct Members<'a> {
    words: &'a [u64; WORDS],
    word: usize,
    left: u64,
}

// Callers see the list of those members.
impl<'a> Model for Members<'a> {
    ghost Value = { List ℕ };

    ghost view = { λ m. still m.words.now m.word m.left };

    ghost invariant = { λ m. m.word < WORDS };
}

impl<'a> Iterator for Members<'a> {
    type Item = usize;

    ghost next_gives = { YieldsFirst (λ still. still) };

    ghost remaining = { item_count (λ still. still) };

    fn next(&mut self) -> Option<usize> {
        // Stays: words without a member are passed over, and what is left of the word is kept for the next call.
        while self.left == 0 {
            if self.word + 1 == WORDS {
                return None;
            }
            self.word += 1;
            self.left = self.words[self.word];
        }
        let zeros = self.left.trailing_zeros();
        self.left &= self.left - 1;
        Some(self.word * 64 + zeros as usize)
    }
}

impl Set {
    // The set without members.
    pub fn empty() -> Self
        ensures { (j : ℕ) → member result j ≡ 0 }
    {
        Set {
            words: [0u64; WORDS],
        }
    }

    // The set with m put in; a number from SITES up is not put in.
    pub fn insert(mut self, m: usize) -> Self
        ensures { (j : ℕ) → member result j ≡ adding (member self) m j }
    {
        if m >= SITES {
            return self;
        }
        let i = m / 64;
        let k = m % 64;
        let word = self.words[i] | 1u64 << k;
        self.words[i] = word;
        self
    }

    // The members, from the lowest up.
    pub fn members(&self) -> Members<'_>
        ensures { result ≡ members_from (member self.now) 0 SITES }
    {
        Members {
            words: &self.words,
            word: 0,
            left: self.words[0],
        }
    }

    // The first member from p up.
    pub fn next(self, p: usize) -> Option<usize>
        ensures { result ≡ first_from (member self) p (SITES - p) }
    {
        let mut i = p / 64;
        let mut k = p % 64;
        while i < WORDS {
            let left = self.words[i] >> k;
            if left != 0 {
                let zeros = left.trailing_zeros();
                return Some(i * 64 + k + zeros as usize);
            }
            i += 1;
            k = 0;
        }
        None
    }

    // The number of members.
    pub fn count(self) -> usize
        ensures { result ≡ sum SITES (member self) }
    {
        let mut total: usize = 0;
        for word in self.words {
            total += word.count_ones() as usize;
        }
        total
    }
}

// Stays: a walk is copied and kept without its set, which `Members`, an iterator that lends it, is not.
// A walk over the members of a set, from the lowest up: the member that it stands at, and those of its word from there up; SITES and none behind the last.
#[derive(Clone, Copy)]
pub struct Walk {
    pub place: usize,
    pub left: u64,
}

// The walk at the lowest member of those that are left of a word.
fn lowest(word: usize, left: u64) -> Walk
    requires { (word < WORDS) × (left ≢ 0) }
    ensures { result ≡ lowest word left }
{
    let zeros = left.trailing_zeros();
    Walk {
        place: word * 64 + zeros as usize,
        left,
    }
}

// The walk at the first member in the words from one up.
fn later(words: &[u64; WORDS], from: usize) -> Walk
    requires { from ≤ WORDS }
    ensures { Walked (within words.now) (from * 64) result }
{
    for q in from..WORDS {
        let left = words[q];
        if left != 0 {
            return lowest(q, left);
        }
    }
    Walk {
        place: SITES,
        left: 0,
    }
}

// The walk at the first member of the set with these words.
pub fn start(words: &[u64; WORDS]) -> Walk
    ensures { Walked (within words.now) 0 result }
{
    later(words, 0)
}

// Inner: only the planner's own crates may call it, since a caller has to show that the walk stands at a member.
// The walk at the next member, from one at a member.
pub fn onward(words: &[u64; WORDS], w: Walk) -> Walk
    requires { Standing (within words.now) w }
    ensures { Walked (within words.now) (w.place + 1) result }
{
    let word = w.place / 64;
    let left = w.left & (w.left - 1);
    if left != 0 {
        return lowest(word, left);
    }
    later(words, word + 1)
}
