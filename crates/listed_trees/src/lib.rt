// Inner: the network of an accepted sheet as a tree that is lent. Only the planner's own crates call it.
#![tactic(auto)]

ghost use Rattle.std.specs.Prelude.{◌≡◌, take};
ghost use Rattle.listed_trees.specs.Listed.{IsTree};

use sheet::Lists;
use tree::AcceptedTree;

// The tree of a network: each list as far as there are sites or links.
pub fn tree_of(network: &Lists) -> AcceptedTree<'_>
    requires { IsTree network.now }
    ensures sites { result.sites ≡ network.now.sites }
    ensures one { result.one.now ≡ take network.now.links network.now.one }
    ensures two { result.two.now ≡ take network.now.links network.now.two }
    ensures marks { result.marks.now ≡ take network.now.sites network.now.mark }
    ensures capacity { result.capacity.now ≡ take network.now.links network.now.capacity }
{
    let Lists { sites, links, .. } = *network;
    AcceptedTree {
        sites,
        one: &network.one[..links],
        two: &network.two[..links],
        marks: &network.mark[..sites],
        capacity: &network.capacity[..links],
    }
}
