// Inner: the links at each site of a tree as chains, the sums along them, and the ends. Only the planner's own crates call it.
#![tactic(auto)]

ghost use Rattle.std.specs.Prelude.{◌≢◌, ◌≡◌, ℕ, suc, ◌+◌, ◌*◌, ◌≤◌, ◌<◌, length};
ghost use Rattle.model.specs.Limits.{SITES};
ghost use Rattle.lists.specs.Numbers.{pick, look};
ghost use Rattle.model.specs.Flows.{sum_at, leaf, mark, end_at, ends};
ghost use Rattle.model.specs.Edition.{largest};
ghost use Rattle.tree.specs.Offer.{links};
ghost use Rattle.tree.specs.Accepted.{TreeWithin};
ghost use Rattle.tree.specs.Steps.{Tells};
ghost use Rattle.tree_links.specs.Chains.{Chained, Limited, Summed};
ghost use Rattle.tree_links.specs.Charts.{IsOrder, AreEnds};

use model::{CHAINS, PLACES, SITES};
use tree::AcceptedTree;

// The links of a tree, chained at each site, the last link first; links are counted from 1, and 0 is none.
#[derive(Clone, Copy)]
pub struct Chains<'a> {
    pub tree: AcceptedTree<'a>,
    // the last link at each site
    pub last: [usize; PLACES],
    // for link j the link before it at its first site, at place 2 j, and at its second, at place 2 j + 1
    pub before: [usize; CHAINS],
    pub ghost chained: { Chained tree.one.now tree.two.now last before },
}

impl<'a> Chains<'a> {
    // The links of a tree chained.
    #[tactic(auto, using(crate::proofs::Chaining::first_in_place, crate::proofs::Chaining::second_in_place))]
    pub fn of(tree: AcceptedTree<'a>) -> Chains<'a>
        ensures { result.tree ≡ tree.entry }
    {
        let mut last = [0usize; PLACES];
        let mut before = [0usize; CHAINS];
        for j in 0..tree.one.len() {
            let a = tree.one[j];
            let b = tree.two[j];
            before[2 * j] = last[a];
            before[2 * j + 1] = last[b];
            last[a] = j + 1;
            last[b] = j + 1;
        }
        Chains { tree, last, before }
    }

    // The link before link j at site v, none where v is no site of link j. Only the planner's own crates call it, of a link that there is.
    pub fn link_before(&self, v: usize, j: usize) -> usize
        requires { j < length self.now.tree.one.now }
        ensures { result ≡ pick (look self.now.tree.one.now j) v (look self.now.before (2 * j))
            (pick (look self.now.tree.two.now j) v (look self.now.before (2 * j + 1)) 0) }
    {
        link_before(v, j, self.tree.one, self.tree.two, &self.before)
    }

    // What the links at v can carry together. Only the planner's own crates call it.
    pub fn sum_at(&self, v: usize, capacity: &[u64]) -> u64
        requires { (v ≤ SITES) × Limited self.now.tree.one.now capacity.now }
        ensures { result ≡ sum_at (links self.now.tree.one.now self.now.tree.two.now) v (look capacity.now) }
    {
        let mut total: u64 = 0;
        let mut p = self.last[v];
        // Stays: the way along a chain goes from link to link, so there is no range or slice to go over.
        while 0 < p {
            total += capacity[p - 1];
            p = self.link_before(v, p - 1);
        }
        total
    }

    // The ends of the tree: place v holds 1 where site v is an end, 0 elsewhere.
    pub fn ends(&self) -> [u8; PLACES]
        ensures { look result ≡ look (ends (links self.now.tree.one.now self.now.tree.two.now) self.now.tree.sites self.now.tree.marks.now) }
    {
        ends(
            self.tree.sites,
            &self.last,
            &self.before,
            self.tree.one,
            self.tree.two,
            self.tree.marks,
        )
    }
}

// What is made once of a tree, for all that is worked out over it: its chains, the elimination order of its sites, and its ends, 1 where a site is an end and
// 0 elsewhere.
#[derive(Clone, Copy)]
pub struct Chart<'a> {
    pub chains: Chains<'a>,
    pub order: [usize; SITES],
    pub ends: [u8; PLACES],
    pub ghost ordered: { IsOrder chains.tree.sites chains.tree.one.now chains.tree.two.now order },
    pub ghost ended: { AreEnds chains.tree.sites chains.tree.one.now chains.tree.two.now chains.tree.marks.now ends },
}

impl<'a> Chart<'a> {
    // The chart of a tree.
    pub fn of(tree: AcceptedTree<'a>) -> Chart<'a>
        ensures { result.chains.tree ≡ tree.entry }
    {
        let order = tree::eliminate(
            tree.sites,
            tree.one,
            tree.two,
            tree.marks,
            tree.capacity,
        ).sites;
        Chart::by(tree, order)
    }

    // The chart of a tree whose elimination order is known.
    pub fn by(tree: AcceptedTree<'a>, order: [usize; SITES]) -> Chart<'a>
        requires { IsOrder tree.sites tree.one.now tree.two.now order }
        ensures { result.chains.tree ≡ tree.entry }
    {
        let chains = Chains::of(tree);
        Chart {
            chains,
            order,
            ends: chains.ends(),
        }
    }
}

// What the links at each of the sites of a tree can carry together. Only the planner's own crates call it.
pub fn sums(one: &[usize], two: &[usize], capacity: &[u64]) -> [u64; PLACES]
    requires { TreeWithin largest (suc (length one.now)) one.now two.now capacity.now }
    ensures { Summed (links one.now two.now) (look capacity.now) result }
{
    let mut list = [0u64; PLACES];
    for j in 0..one.len() {
        let a = one[j];
        let b = two[j];
        let size = capacity[j];
        list[a] += size;
        list[b] += size;
    }
    list
}

// The link before link j at site v, by what is noted of each link; none where v is no site of link j.
fn link_before(v: usize, j: usize, one: &[usize], two: &[usize], before: &[usize; CHAINS]) -> usize
    requires { (j < length one.now) × (j < length two.now) × (j < SITES) }
    ensures { result ≡ pick (look one.now j) v (look before.now (2 * j))
        (pick (look two.now j) v (look before.now (2 * j + 1)) 0) }
{
    if one[j] == v {
        return before[2 * j];
    }
    if two[j] == v {
        return before[2 * j + 1];
    }
    0
}

// 1 if v has just one link, 0 if not: its last link is one, and there is none before it.
fn leaf_at(
    v: usize,
    last: &[usize; PLACES],
    before: &[usize; CHAINS],
    one: &[usize],
    two: &[usize],
) -> u8
    requires { (v ≤ SITES) × Chained one.now two.now last.now before.now }
    ensures { result ≡ leaf (links one.now two.now) v }
{
    let p = last[v];
    if p == 0 {
        return 0;
    }
    if link_before(v, p - 1, one, two, before) == 0 {
        return 1;
    }
    0
}

// The mark of site v, by the marks of the sites 1, 2, ..; 0 is no site, and has none.
fn mark_at(v: usize, marks: &[u8]) -> u8
    requires { v ≤ length marks.now }
    ensures { result ≡ mark marks.now v }
{
    if v == 0 {
        return 0;
    }
    marks[v - 1]
}

// Whether no site is marked.
pub fn unmarked(marks: &[u8]) -> bool
    ensures { Tells result ((v : ℕ) → mark marks.now v ≢ 1) }
{
    marks.iter().all(|mark| *mark != 1)
}

// 1 if v is an end, 0 if not: it is marked, or has just one link.
fn end_at(
    v: usize,
    last: &[usize; PLACES],
    before: &[usize; CHAINS],
    one: &[usize],
    two: &[usize],
    marks: &[u8],
) -> u8
    requires { (v ≤ SITES) × (v ≤ length marks.now) × Chained one.now two.now last.now before.now }
    ensures { result ≡ end_at (links one.now two.now) marks.now v }
{
    if mark_at(v, marks) == 1 {
        return 1;
    }
    leaf_at(v, last, before, one, two)
}

// The ends of n sites with their marks: place v holds 1 where site v is an end, 0 elsewhere. Only the planner's own crates call it, of links that are chained.
pub fn ends(
    n: usize,
    last: &[usize; PLACES],
    before: &[usize; CHAINS],
    one: &[usize],
    two: &[usize],
    marks: &[u8],
) -> [u8; PLACES]
    requires { (n ≤ SITES) × (n ≡ length marks.now) × Chained one.now two.now last.now before.now }
    ensures { look result ≡ look (ends (links one.now two.now) n marks.now) }
{
    let mut list = [0u8; PLACES];
    for v in 0..n + 1 {
        list[v] = end_at(v, last, before, one, two, marks);
    }
    list
}
