// Inner: the labels of sites (tree_labels) held by parents while links come in: each site has a parent, itself or a lower site, and the root that the parents lead to
// tells the label. Before the first link every site is its own parent. Place x is that of site x, and place 0 is unused. Only the planner's own crates call it.
#![tactic(auto)]

ghost use Rattle.std.specs.Prelude.{◌<◌, length};
ghost use Rattle.tree_parents.specs.Parents.{Lower, Root, Shorter, Joins, Settled};

// The root of a site, where no parent is above its site.
pub fn root(parents: &[u16], site: usize) -> usize
    requires { site < length parents.now }
    ensures { Lower parents.now → Root parents.now site result }
{
    let mut x = site;
    // Stays: the way goes up by parents, not by one, so there is no range or iterator to go over.
    while usize::from(parents[x]) < x {
        x = usize::from(parents[x]);
    }
    x
}

// The root of a site, where each site on the way gets the parent of its parent.
fn root_by_halves(parents: &mut [u16], site: usize) -> usize
    requires { Lower parents.old × (site < length parents.old) }
    ensures { Root parents.old site result × Shorter parents.old parents.new }
{
    let mut x = site;
    // Stays: the way goes up by parents, not by one, so there is no range or iterator to go over.
    while usize::from(parents[x]) < x {
        let up = parents[usize::from(parents[x])];
        parents[x] = up;
        x = usize::from(up);
    }
    x
}

// The parents with one link more: the higher one of the roots of its two sites gets the lower one for its parent.
pub fn join(parents: &mut [u16], one: usize, two: usize)
    requires { Lower parents.old × (one < length parents.old) × (two < length parents.old) }
    ensures { Joins parents.old parents.new one two }
{
    let a = root_by_halves(parents, one);
    let b = root_by_halves(parents, two);
    if a < b {
        parents[b] = parents[a];
    } else {
        parents[a] = parents[b];
    }
}

// The labels that the parents hold: each site gets its root.
pub fn settle(parents: &mut [u16])
    requires { Lower parents.old }
    ensures { Settled parents.old parents.new }
{
    for x in 0..parents.len() {
        parents[x] = parents[usize::from(parents[x])];
    }
}
