// Inner: what two regions that share one link are given (document 02, Card 10): each its trimmed sizes and their sum, by the one number that the other shows.
// Only the planner's own crates call it.
#![tactic(auto)]

ghost use Rattle.std.specs.Prelude.{◌≡◌, ◌++◌, ◌≤◌, ◌<◌, length, drop};
ghost use Rattle.theory_regions.specs.Regions.{first_size, given};
ghost use Rattle.region_sizes.specs.Offered.{region_of};

use tree::AcceptedTree;
use tree_links::Chart;

// The sum that each region is told, over its own ends' links.
#[derive(Clone, Copy)]
pub struct Sums {
    pub first: u64,
    pub second: u64,
}

// What two regions are given, by the number of the shared link in each: each is charted once, and its trimmed sizes are put at the front of its lent list.
pub fn give_both(
    tree: AcceptedTree,
    link: usize,
    tree2: AcceptedTree,
    link2: usize,
    sizes: &mut [u64],
    sizes2: &mut [u64],
) -> Sums
    requires { (link < length tree.one.now) × (link2 < length tree2.one.now)
        × (length tree.one.now ≤ length sizes.old) × (length tree2.one.now ≤ length sizes2.old) }
    ensures told { result.first ≡ (given (region_of tree.entry) link (first_size (region_of tree2.entry) link2)).sum }
    ensures told2 { result.second ≡ (given (region_of tree2.entry) link2 (first_size (region_of tree.entry) link)).sum }
    ensures left { sizes.new ≡ (given (region_of tree.entry) link (first_size (region_of tree2.entry) link2)).sizes
        ++ drop (length tree.entry.one.now) sizes.old }
    ensures left2 { sizes2.new ≡ (given (region_of tree2.entry) link2 (first_size (region_of tree.entry) link)).sizes
        ++ drop (length tree2.entry.one.now) sizes2.old }
{
    let chart = Chart::of(tree);
    let chart2 = Chart::of(tree2);
    let shown = region_sizes::first_size(&chart, link);
    let shown2 = region_sizes::first_size(&chart2, link2);
    Sums {
        first: region_sizes::give_by(&chart, link, shown, shown2, sizes),
        second: region_sizes::give_by(&chart2, link2, shown2, shown, sizes2),
    }
}
