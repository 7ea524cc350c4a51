// Inner: whether two regions share one link (document 02, Card 10), by the partner of each site of the first, and which link it is in each. Only the
// planner's own crates call it.
#![tactic(auto)]

ghost use Rattle.std.specs.Prelude.{◌||◌, ◌≡◌, ℕ, ◌*◌, ◌≤◌, eqb};
ghost use Rattle.lists.specs.Numbers.{look};
ghost use Rattle.model.specs.Flows.{Site};
ghost use Rattle.theory_regions.specs.Regions.{lone};
ghost use Rattle.theory_regions.specs.Sharing.{sharing_of};
ghost use Rattle.region_sizes.specs.Offered.{region_of};
ghost use Rattle.region_sharing.specs.Shared.{shared_by};

use model::PLACES;
use tree::AcceptedTree;

// The link that two regions share: its number in each.
#[derive(Clone, Copy, Debug, PartialEq, Eq)]
pub struct Shared {
    pub first: usize,
    pub second: usize,
}

// Whether site y has a single link and no mark in one region, and site z in another.
fn lone_in_both(tree: AcceptedTree, y: usize, tree2: AcceptedTree, z: usize) -> bool
    requires { Site tree.sites y × Site tree2.sites z }
    ensures { result ≡ eqb (lone (region_of tree.entry) y * lone (region_of tree2.entry) z) 1 }
{
    if region_sizes::lone(tree, y) {
        return region_sizes::lone(tree2, z);
    }
    false
}

// Whether one of the sites x and y of a link may be far from the first region and the partner of the other from the second.
fn far_sites(
    tree: AcceptedTree,
    x: usize,
    y: usize,
    tree2: AcceptedTree,
    x2: usize,
    y2: usize,
) -> bool
    requires { Site tree.sites x × Site tree.sites y × Site tree2.sites x2 × Site tree2.sites y2 }
    ensures { result ≡ (eqb (lone (region_of tree.entry) y * lone (region_of tree2.entry) x2) 1
        || eqb (lone (region_of tree.entry) x * lone (region_of tree2.entry) y2) 1) }
{
    if lone_in_both(tree, y, tree2, x2) {
        return true;
    }
    lone_in_both(tree, x, tree2, y2)
}

// The link that two regions share, if they share one: two names in common, a link between them in both, of one size, and a far site each.
pub fn sharing(
    tree: AcceptedTree,
    tree2: AcceptedTree,
    partners: &[usize; PLACES],
) -> Option<Shared>
    requires { (x : ℕ) → Site tree.sites x → look partners.now x ≤ tree2.sites }
    ensures { result ≡ shared_by (sharing_of (region_of tree.entry) (region_of tree2.entry) (look partners.now)) }
{
    if region_links::commons(tree.sites, partners) != 2 {
        return None;
    }
    let first = region_links::shared_first(tree.one, tree.two, partners);
    if first >= tree.one.len() {
        return None;
    }
    let x = tree.one[first];
    let y = tree.two[first];
    let x2 = partners[x];
    let y2 = partners[y];
    let second = region_links::shared_second(tree2.one, tree2.two, x2, y2);
    if second >= tree2.one.len() {
        return None;
    }
    if tree.capacity[first] != tree2.capacity[second] {
        return None;
    }
    if far_sites(tree, x, y, tree2, x2, y2) {
        return Some(Shared { first, second });
    }
    None
}
