// Inner: a region that shares one link (document 02, Card 10): the one number that it shows, and what it is given for the other's number. Nothing of the
// other region comes here but that number. Only the planner's own crates call it.
#![tactic(auto)]

ghost use Rattle.std.specs.Prelude.{◌≡◌, ◌++◌, ◌*◌, ◌≤◌, ◌<◌, min, eqb, length, take, drop, set};
ghost use Rattle.lists.specs.Numbers.{pick, is, look};
ghost use Rattle.model.specs.Limits.{SITES};
ghost use Rattle.model.specs.Flows.{Site, sum_at, leaf, at_terminals};
ghost use Rattle.model.specs.Trimming.{balanced};
ghost use Rattle.theory_regions.specs.Regions.{first_size, lone, far_site, own, given};
ghost use Rattle.tree.specs.Offer.{links};
ghost use Rattle.model.specs.Edition.{largest};
ghost use Rattle.tree.specs.Accepted.{TreeWithin};
ghost use Rattle.tree_links.specs.Chains.{Placed, Limited};
ghost use Rattle.region_sizes.specs.Offered.{region_of};

use model::SITES;
use tree::AcceptedTree;
use tree_links::Chart;

// 1 if v is one of the two sites of a link, 0 if not.
fn at(first: usize, second: usize, v: usize) -> usize
    ensures { result ≡ pick first v 1 (is second v) }
{
    if first == v {
        return 1;
    }
    if second == v {
        return 1;
    }
    0
}

// Whether a site has just one link.
fn is_leaf(one: &[usize], two: &[usize], v: usize) -> bool
    requires { Placed one.now two.now }
    ensures { result ≡ eqb (leaf (links one.now two.now) v) 1 }
{
    let mut count: usize = 0;
    for j in 0..one.len() {
        count += at(one[j], two[j], v);
    }
    count == 1
}

// Whether a site has a single link and no mark.
pub fn lone(tree: AcceptedTree, v: usize) -> bool
    requires { Site tree.sites v }
    ensures { result ≡ eqb (lone (region_of tree.entry) v) 1 }
{
    if tree.marks[v - 1] == 1 {
        return false;
    }
    is_leaf(tree.one, tree.two, v)
}

// The far site of a link: its second site where that has a single link and no mark, else its first.
fn far_site(tree: AcceptedTree, link: usize) -> usize
    requires { link < length tree.one.now }
    ensures { result ≡ far_site (region_of tree.entry) link }
{
    let second = tree.two[link];
    if lone(tree, second) {
        return second;
    }
    tree.one[link]
}

// What site v counts in the sum of a region: the sizes of its links where it is an end other than the far site, else 0.
fn own_at(chart: &Chart, sizes: &[u64], far: usize, v: usize) -> u64
    requires { (v ≤ SITES) × Limited chart.now.chains.tree.one.now sizes.now }
    ensures { result ≡ is (own (look chart.now.ends) far v) 1
        * sum_at (links chart.now.chains.tree.one.now chart.now.chains.tree.two.now) v (look sizes.now) }
{
    if v == far {
        return 0;
    }
    if chart.ends[v] != 1 {
        return 0;
    }
    chart.chains.sum_at(v, sizes)
}

// The sum of sizes over the links of a region's own ends, each end counting each of its links; the far site counts for the other region, and with 0 for it
// no site is left out.
fn own_sum(chart: &Chart, sizes: &[u64], far: usize) -> u64
    requires { TreeWithin largest chart.now.chains.tree.sites chart.now.chains.tree.one.now chart.now.chains.tree.two.now sizes.now }
    ensures { result ≡ at_terminals (links chart.now.chains.tree.one.now chart.now.chains.tree.two.now) chart.now.chains.tree.sites
        (own (look chart.now.ends) far) (look sizes.now) }
{
    let mut total: u64 = 0;
    for i in 0..chart.chains.tree.sites {
        total += own_at(chart, sizes, far, i + 1);
    }
    total
}

// The trimmed sizes of a region for these capacities, at the front of a lent list with a place for each link, and their sum over the links of its ends other
// than the far site; with 0 for that one, no site is left out.
pub fn trim(chart: &Chart, capacity: &[u64], far: usize, sizes: &mut [u64]) -> u64
    requires { TreeWithin largest chart.now.chains.tree.sites chart.now.chains.tree.one.now chart.now.chains.tree.two.now capacity.now
        × (length chart.now.chains.tree.one.now ≤ length sizes.old) }
    ensures told { result ≡ at_terminals (links chart.now.chains.tree.one.now chart.now.chains.tree.two.now) chart.now.chains.tree.sites
        (own (look chart.now.ends) far)
        (look (balanced (links chart.now.chains.tree.one.now chart.now.chains.tree.two.now) chart.now.chains.tree.sites
        (look chart.now.ends) capacity.now)) }
    ensures left { sizes.new ≡ balanced (links chart.now.chains.tree.one.now chart.now.chains.tree.two.now) chart.now.chains.tree.sites
        (look chart.now.ends) capacity.now ++ drop (length chart.now.chains.tree.one.now) sizes.old }
{
    trimming_passes::balance(&chart.chains, &chart.order, &chart.ends, capacity, sizes);
    own_sum(chart, &sizes[..chart.chains.tree.one.len()], far)
}

// The one number that a region shows, by its chart: its first trimmed size of the shared link.
pub fn first_size(chart: &Chart, link: usize) -> u64
    requires { link < length chart.now.chains.tree.one.now }
    ensures { result ≡ first_size (region_of chart.now.chains.tree) link }
{
    let mut list = [0u64; SITES];
    let chains = &chart.chains;
    trimming_passes::balance(
        chains,
        &chart.order,
        &chart.ends,
        chains.tree.capacity,
        &mut list,
    );
    list[link]
}

// Capacities with another size for one link, at the front of a list.
fn resized(capacity: &[u64], link: usize, size: u64) -> [u64; SITES]
    requires { (length capacity.now ≤ SITES) × (link < length capacity.now) }
    ensures { take (length capacity.now) result ≡ set capacity.now link size }
{
    let mut list = [0u64; SITES];
    list[..capacity.len()].copy_from_slice(capacity);
    list[link] = size;
    list
}

// What a region is given for the other's number, by its chart and the number that it shows itself: its trimmed sizes, at the front of a lent list with a
// place for each link, and their sum over its own ends' links.
pub fn give_by(chart: &Chart, link: usize, shown: u64, other: u64, sizes: &mut [u64]) -> u64
    requires { (link < length chart.now.chains.tree.one.now) × (shown ≡ first_size (region_of chart.now.chains.tree) link)
        × (length chart.now.chains.tree.one.now ≤ length sizes.old) }
    ensures told { result ≡ (given (region_of chart.now.chains.tree) link other).sum }
    ensures left { sizes.new ≡ (given (region_of chart.now.chains.tree) link other).sizes
        ++ drop (length chart.now.chains.tree.one.now) sizes.old }
{
    let tree = chart.chains.tree;
    let far = far_site(tree, link);
    let list = resized(tree.capacity, link, shown.min(other));
    trim(chart, &list[..tree.capacity.len()], far, sizes)
}

// What a region is given for the other's number: its trimmed sizes, at the front of a lent list with a place for each link, and their sum over its own
// ends' links.
pub fn give(tree: AcceptedTree, link: usize, other: u64, sizes: &mut [u64]) -> u64
    requires { (link < length tree.one.now) × (length tree.one.now ≤ length sizes.old) }
    ensures told { result ≡ (given (region_of tree.entry) link other).sum }
    ensures left { sizes.new ≡ (given (region_of tree.entry) link other).sizes ++ drop (length tree.entry.one.now) sizes.old }
{
    let chart = Chart::of(tree);
    let shown = first_size(&chart, link);
    give_by(&chart, link, shown, other, sizes)
}
