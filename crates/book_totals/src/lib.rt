// Inner: only the planner's own crates call it. The total of an entry of the exercise book (document 02, Card 13): its links and sizes are offered to trimming
// as a tree without marks, and the trimmed sizes are summed over the ends' links.
#![tactic(auto)]

ghost use Rattle.std.specs.Prelude.{◌≡◌, ◌*◌, ◌≤◌, length, take, replicate};
ghost use Rattle.lists.specs.Numbers.{is, look};
ghost use Rattle.model.specs.Limits.{SITES};
ghost use Rattle.model.specs.Edition.{largest};
ghost use Rattle.model.specs.Flows.{sum_at, ends, at_terminals};
ghost use Rattle.model.specs.Trimming.{elimination};
ghost use Rattle.tree.specs.Offer.{links};
ghost use Rattle.tree.specs.Accepted.{TreeWithin};
ghost use Rattle.tree_links.specs.Chains.{Limited};
ghost use Rattle.trimming.specs.Outcome.{capacities};
ghost use Rattle.book_totals.specs.Total.{Few, total_of};

use model::{PLACES, SITES};
use tree::AcceptedTree;
use tree_links::Chains;

// What site v counts: the sizes of its links where it is an end, else 0.
fn at_end(chains: &Chains, ends: &[u8; PLACES], sizes: &[u64], v: usize) -> u64
    requires { (v ≤ SITES) × Limited chains.now.tree.one.now sizes.now }
    ensures { result ≡ is (look ends.now v) 1
        * sum_at (links chains.now.tree.one.now chains.now.tree.two.now) v (look sizes.now) }
{
    if ends[v] != 1 {
        return 0;
    }
    chains.sum_at(v, sizes)
}

// The sum of sizes over the ends' links of a tree.
fn at_ends(chains: &Chains, ends: &[u8; PLACES], sizes: &[u64]) -> u64
    requires { TreeWithin largest chains.now.tree.sites chains.now.tree.one.now chains.now.tree.two.now sizes.now }
    ensures { result ≡ at_terminals (links chains.now.tree.one.now chains.now.tree.two.now) chains.now.tree.sites (look ends.now) (look sizes.now) }
{
    let n = chains.tree.sites;
    let mut total: u64 = 0;
    for i in 0..n {
        total += at_end(chains, ends, sizes, i + 1);
    }
    total
}

// The sum of the trimmed sizes over the ends' links of a tree with few links, by the order of its sites; its chains and ends are made once for both.
fn trimmed_at_ends(tree: AcceptedTree, order: &[usize; SITES]) -> u64
    requires { (length tree.one.now ≤ 4)
        × (take tree.sites order.now ≡ elimination (links tree.one.now tree.two.now) tree.sites) }
    ensures { result ≡ at_terminals (links tree.entry.one.now tree.entry.two.now) tree.entry.sites
        (look (ends (links tree.entry.one.now tree.entry.two.now) tree.entry.sites tree.entry.marks.now))
        (look (capacities tree.entry.sites tree.entry.one.now tree.entry.two.now tree.entry.marks.now tree.entry.capacity.now)) }
{
    let chains = Chains::of(tree);
    let ends = chains.ends();
    let mut trimmed = [0u64; 4];
    trimming_passes::balance(&chains, order, &ends, tree.capacity, &mut trimmed);
    at_ends(&chains, &ends, &trimmed[..tree.one.len()])
}

// The total of links between n sites with their sizes, and no mark, in halves; none where they are no tree.
fn total_unmarked(
    n: usize,
    one: &[usize],
    two: &[usize],
    marks: &[u8],
    sizes: &[u64],
) -> Option<u64>
    requires { Few n one.now two.now sizes.now × (marks.now ≡ replicate n 0) }
    ensures { result ≡ total_of n (links one.now two.now) sizes.now }
{
    let found = tree::eliminate(n, one, two, marks, sizes);
    match found.offer {
        Ok(()) => {
            let tree = AcceptedTree {
                sites: n,
                one,
                two,
                marks,
                capacity: sizes,
            };
            Some(trimmed_at_ends(tree, &found.sites))
        }
        Err(_) => None,
    }
}

// The total of links between n sites with their sizes, in halves; none where they are no tree.
pub fn total(n: usize, one: &[usize], two: &[usize], sizes: &[u64]) -> Option<u64>
    requires { Few n one.now two.now sizes.now }
    ensures { result ≡ total_of n (links one.now two.now) sizes.now }
{
    let marks = [0u8; 5];
    total_unmarked(n, one, two, &marks[..n], sizes)
}
