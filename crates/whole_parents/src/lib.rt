// Inner: the parent of each site in the elimination order of a tree, and the capacity of the link to it. Only the planner's own crates call it.
#![tactic(auto)]

ghost use Rattle.std.specs.Prelude.{◌≡◌, take, ◌≤◌};
ghost use Rattle.model.specs.Limits.{SITES};
ghost use Rattle.model.specs.Edition.{largest};
ghost use Rattle.model.specs.Trimming.{elimination};
ghost use Rattle.lists.specs.Numbers.{look};
ghost use Rattle.tree.specs.Accepted.{TreeWithin};
ghost use Rattle.tree.specs.Offer.{links};
ghost use Rattle.whole_parents.specs.Parents.{Single, Ordered, Placed, Earlier, Children, ParentsOf};

use model::{PLACES, SITES};

// The child of each link, of its two sites the one that is taken first; at place x the parent of site x, and the capacity of the link to it,
// 0 where there is none.
// Stays: a list for each, since the paths of a log go by the children and the parents alone, and `ParentsOf` speaks of each list.
#[derive(Clone, Copy)]
pub struct Parents {
    pub child: [u16; SITES],
    pub parent: [u16; PLACES],
    pub above: [u32; PLACES],
}

// The place of each site in an order.
fn places(n: usize, order: &[usize; SITES]) -> [u16; PLACES]
    requires { Single n order.now }
    ensures { Placed n order.now result }
{
    let mut place = [0u16; PLACES];
    for i in 0..n {
        place[order[i]] = i as u16;
    }
    place
}

// Of two sites the one with the lower place.
fn earlier(a: usize, b: usize, place: &[u16; PLACES]) -> usize
    requires { (a ≤ SITES) × (b ≤ SITES) }
    ensures { Earlier place.now a b result }
{
    if place[a] < place[b] {
        return a;
    }
    b
}

// The child of each link.
fn children(n: usize, order: &[usize; SITES], one: &[usize], two: &[usize]) -> [u16; SITES]
    requires { Ordered n order.now one.now two.now }
    ensures { Children (links one.now two.now) (take n order.now) result }
{
    let place = places(n, order);
    let mut child = [0u16; SITES];
    for j in 0..one.len() {
        child[j] = earlier(one[j], two[j], &place) as u16;
    }
    child
}

// The parents in the elimination order of a tree: the other site of each link is the parent of its child.
pub fn parents_of(
    n: usize,
    order: &[usize; SITES],
    one: &[usize],
    two: &[usize],
    capacity: &[u64],
) -> Parents
    requires { TreeWithin largest n one.now two.now capacity.now × (take n order.now ≡ elimination (links one.now two.now) n) }
    ensures { ParentsOf (links one.now two.now) (take n order.now) (look capacity.now)
        result.child result.parent result.above }
{
    let child = children(n, order, one, two);
    let mut parent = [0u16; PLACES];
    let mut above = [0u32; PLACES];
    for j in 0..one.len() {
        let c = usize::from(child[j]);
        parent[c] = (one[j] + two[j] - c) as u16;
        above[c] = capacity[j] as u32;
    }
    Parents {
        child,
        parent,
        above,
    }
}
