// Inner: balanced capacities of a tree (01: trimming), cut at each site inward along an order, then outward against it. Only the planner's own crates call it.
#![tactic(auto)]

ghost use Rattle.std.specs.Prelude.{◌≡◌, [], ◌∷◌, ◌++◌, ◌-◌, ◌*◌, ◌≤◌, ◌<◌, min, length, set, take, drop};
ghost use Rattle.model.specs.Limits.{SITES};
ghost use Rattle.lists.specs.Numbers.{look};
ghost use Rattle.model.specs.Flows.{sum_at};
ghost use Rattle.model.specs.Edition.{largest};
ghost use Rattle.model.specs.Trimming.{elimination, balanced};
ghost use Rattle.tree.specs.Accepted.{TreeWithin};
ghost use Rattle.tree.specs.Offer.{links};
ghost use Rattle.trimming_passes.specs.Steps.{InPlaces, Middle, SumsKept, cut_first, balanced_first};

use model::{PLACES, SITES};
use tree_links::Chains;

// The one link at site v that can be heavy, counted from 1: the first of the chain by which half of the sum is passed; 0 if none can be.
fn middle_at(chains: &Chains, v: usize, sum: u64, capacity: &[u64]) -> usize
    requires { (v ≤ SITES) × (length chains.now.tree.one.now ≤ length capacity.now)
        × (sum ≡ sum_at (links chains.now.tree.one.now chains.now.tree.two.now) v (look capacity.now)) }
    ensures { Middle (links chains.now.tree.one.now chains.now.tree.two.now) v (look capacity.now) result }
{
    let mut passed: u64 = 0;
    let mut p = chains.last[v];
    // Stays: the way along a chain goes from link to link, so there is no range or slice to go over.
    while 0 < p {
        passed += capacity[p - 1];
        if sum - passed < passed {
            return p;
        }
        p = chains.link_before(v, p - 1);
    }
    0
}

// Lowers the capacity of link j by d, and the sums at its two sites.
fn lower(
    j: usize,
    d: u64,
    one: &[usize],
    two: &[usize],
    sums: &mut [u64; PLACES],
    capacity: &mut [u64],
)
    requires { (j < length one.now) × (d ≤ look capacity.old j) × SumsKept one.now two.now capacity.old sums.old }
    ensures { (capacity.new ≡ set capacity.old j (look capacity.old j - d))
        × SumsKept one.now two.now capacity.new sums.new }
{
    let a = one[j];
    let b = two[j];
    capacity[j] -= d;
    sums[a] -= d;
    sums[b] -= d;
}

// Cuts the capacities at site v, if it is no end: a heavy link keeps no more than the other links there have together.
fn cut(
    chains: &Chains,
    ends: &[u8; PLACES],
    v: usize,
    sums: &mut [u64; PLACES],
    capacity: &mut [u64],
)
    requires { (v ≤ SITES) × SumsKept chains.now.tree.one.now chains.now.tree.two.now capacity.old sums.old }
    ensures { (capacity.new ≡ cut_first chains.now.tree.one.now chains.now.tree.two.now (look ends.now) (v ∷ []) capacity.old)
        × SumsKept chains.now.tree.one.now chains.now.tree.two.now capacity.new sums.new }
{
    if ends[v] == 1 {
        return;
    }
    let sum = sums[v];
    let p = middle_at(chains, v, sum, capacity);
    if p == 0 {
        return;
    }
    let t = capacity[p - 1];
    if t <= sum - t {
        return;
    }
    let tree = chains.tree;
    lower(p - 1, t - (sum - t), tree.one, tree.two, sums, capacity);
}

// The place that step i of a way along n places and back comes to.
fn there_and_back(i: usize, n: usize) -> usize
    requires { (i < 2 * n) × (n ≤ SITES) }
    ensures { result ≡ min i (2 * n - 1 - i) }
{
    if i < n {
        return i;
    }
    2 * n - 1 - i
}

// Cuts the capacities at each site of an order in turn, and back against it.
fn both_ways(
    chains: &Chains,
    order: &[usize; SITES],
    ends: &[u8; PLACES],
    sums: &mut [u64; PLACES],
    capacity: &mut [u64],
)
    requires { InPlaces chains.now.tree.sites (take chains.now.tree.sites order.now)
        × SumsKept chains.now.tree.one.now chains.now.tree.two.now capacity.old sums.old }
    ensures { (capacity.new ≡ balanced_first chains.now.tree.one.now chains.now.tree.two.now (look ends.now)
        (take chains.now.tree.sites order.now) capacity.old)
        × SumsKept chains.now.tree.one.now chains.now.tree.two.now capacity.new sums.new }
{
    let n = chains.tree.sites;
    for i in 0..2 * n {
        let v = order[there_and_back(i, n)];
        cut(chains, ends, v, sums, capacity);
    }
}

// Copies a list to the front of a lent one.
fn copy(from: &[u64], to: &mut [u64])
    requires { length from.now ≤ length to.old }
    ensures { to.new ≡ from.now ++ drop (length from.now) to.old }
{
    // Stays: both lists are lent, so `copy_from_slice` becomes `memmove`, which the archive for C needs nowhere else.
    for (j, size) in from.iter().enumerate() {
        to[j] = *size;
    }
}

// The balanced capacities of a tree, at the front of a lent list: they are cut along its elimination order and back, by its chains and ends.
pub fn balance(
    chains: &Chains,
    order: &[usize; SITES],
    ends: &[u8; PLACES],
    capacity: &[u64],
    lent: &mut [u64],
)
    requires { TreeWithin largest chains.now.tree.sites chains.now.tree.one.now chains.now.tree.two.now capacity.now
        × (take chains.now.tree.sites order.now ≡ elimination (links chains.now.tree.one.now chains.now.tree.two.now) chains.now.tree.sites)
        × (length chains.now.tree.one.now ≤ length lent.old) }
    ensures { lent.new ≡ balanced (links chains.now.tree.one.now chains.now.tree.two.now) chains.now.tree.sites (look ends.now) capacity.now
        ++ drop (length capacity.now) lent.old }
{
    copy(capacity, lent);
    let tree = chains.tree;
    let mut sums = tree_links::sums(tree.one, tree.two, capacity);
    both_ways(chains, order, ends, &mut sums, lent);
}
