// What is said of an offered tree with its marks whose capacities are to be paired, and its pair list.
#![tactic(auto)]

mod weighing;

ghost use Rattle.std.specs.Prelude.{◌≡◌, ℕ, ◌≤◌, length, Err, MatchResult};
ghost use Rattle.pairing.specs.Outcome.{unpaired, answer, paired};
ghost use Rattle.pairing.specs.Storing.{Made};

use model::{Pair, Pairs, SITES};
use tree::{AcceptedTree, Unfit};
use tree_links::Chains;

// Why the capacities of an offered tree are not paired.
#[derive(Clone, Copy, PartialEq, Eq, Debug)]
pub enum Unpaired {
    // no tree of two or more sites within the limits, with a mark for each site
    NoTree,
    // a capacity above the limit
    TooLarge,
    // fewer lent places than links
    Short,
    // a link that is larger than all other links of an inner site together
    Heavy,
}

impl From<Unfit> for Unpaired {
    ghost from_gives = { λ why result. result ≡ unpaired why };

    fn from(why: Unfit) -> Unpaired {
        match why {
            Unfit::NoTree => Unpaired::NoTree,
            Unfit::TooLarge => Unpaired::TooLarge,
        }
    }
}

// The pairs of an accepted tree, where there are enough places, in the order in which they are made.
fn take_apart(tree: AcceptedTree) -> Result<Pairs, Unpaired>
    ensures { (places : ℕ) → length tree.entry.one.now ≤ places
        → MatchResult result (Made tree.entry.sites tree.entry.one.now tree.entry.two.now tree.entry.marks.now tree.entry.capacity.now places)
        (λ e. answer tree.entry.sites tree.entry.one.now tree.entry.two.now tree.entry.marks.now tree.entry.capacity.now places ≡ Err e) }
{
    let chains = Chains::of(tree);
    let ends = chains.ends();
    if weighing::heavy(&chains, &ends) {
        return Err(Unpaired::Heavy);
    }
    Ok(pairing_walk::decompose(&chains, &ends, tree.capacity))
}

// The pairs of an offer with so many lent places, in the order in which they are made.
fn work_out(
    n: usize,
    one: &[usize],
    two: &[usize],
    marks: &[u8],
    capacity: &[u64],
    places: usize,
) -> Result<Pairs, Unpaired>
    ensures { MatchResult result (Made n one.now two.now marks.now capacity.now places)
        (λ e. answer n one.now two.now marks.now capacity.now places ≡ Err e) }
{
    tree::test(n, one, two, marks, capacity)?;
    if places < one.len() {
        return Err(Unpaired::Short);
    }
    take_apart(AcceptedTree {
        sites: n,
        one,
        two,
        marks,
        capacity,
    })
}

// Decomposes the balanced capacities of an offered tree into pairs, in order, in a lent list, and returns how many there are.
pub fn pair_up(
    n: usize,
    one: &[usize],
    two: &[usize],
    marks: &[u8],
    capacity: &[u64],
    pairs: &mut [Pair],
) -> Result<usize, Unpaired>
    ensures { (result ≡ answer n one.now two.now marks.now capacity.now (length pairs.old))
        × (pairs.new ≡ paired n one.now two.now marks.now capacity.now pairs.old) }
{
    let made = work_out(n, one, two, marks, capacity, pairs.len())?;
    pairing_order::store(pairs, made.list, made.count);
    Ok(made.count)
}
