// Terminal cuts: for each site the terminal whose cut holds it, and each cut's size and number of sites.
#![tactic(auto)]

ghost use Rattle.std.specs.Prelude.{◌≡◌, length};
ghost use Rattle.cuts.specs.Outcome.{refused, offered_cuts, outcome};

use cuts_groups::NONE;
use model::{SITES, SIZE};
use tree::{AcceptedTree, Unfit};
use tree_links::Chains;

// Why a tree with given and balanced capacities gets no cuts.
#[derive(Clone, Copy, PartialEq, Eq, Debug)]
pub enum Refused {
    // no tree of two or more sites within the limits, with a mark for each site
    NoTree,
    // a given or a balanced capacity above the limit
    TooLarge,
    // balanced capacities of another number than the links
    Unequal,
}

impl From<Unfit> for Refused {
    ghost from_gives = { λ why result. result ≡ refused why };

    fn from(why: Unfit) -> Refused {
        match why {
            Unfit::NoTree => Refused::NoTree,
            Unfit::TooLarge => Refused::TooLarge,
        }
    }
}

// The terminal cuts, at place x - 1 for site x: the terminal whose cut holds the site, and for a terminal the size and the number of
// sites of its cut. Places of other sites and places past the last site hold 0.
#[derive(Clone, Copy)]
pub struct Cuts {
    pub owner: [usize; SITES],
    pub size: [u64; SITES],
    pub count: [usize; SITES],
}

// The cuts of the ends of a tree.
fn cuts_by_ends(tree: AcceptedTree, balanced: &[u64]) -> Cuts
    requires { length balanced.now ≡ length tree.one.now }
    ensures { result ≡ offered_cuts tree.entry.sites tree.entry.one.now tree.entry.two.now tree.entry.marks.now tree.entry.capacity.now balanced.now }
{
    let ends = Chains::of(tree).ends();
    let mut owner = [NONE; SITES];
    let mut size = [0u64; SITES];
    let mut count = [0usize; SITES];
    cuts_groups::cuts_of(
        tree.sites,
        &ends,
        tree.one,
        tree.two,
        tree.capacity,
        balanced,
        &mut owner,
        &mut size,
        &mut count,
    );
    Cuts { owner, size, count }
}

// The terminal cuts of n sites with their marks and the links between the sites one[j] and two[j], by the given and the balanced capacities.
pub fn terminal_cuts(
    n: usize,
    one: &[usize],
    two: &[usize],
    marks: &[u8],
    capacity: &[u64],
    balanced: &[u64],
) -> Result<Cuts, Refused>
    ensures { result ≡ outcome n one.now two.now marks.now capacity.now balanced.now }
{
    tree::test(n, one, two, marks, capacity)?;
    if balanced.len() != one.len() {
        return Err(Refused::Unequal);
    }
    if !tree::capacities_within(SIZE, balanced) {
        return Err(Refused::TooLarge);
    }
    let tree = AcceptedTree {
        sites: n,
        one,
        two,
        marks,
        capacity,
    };
    Ok(cuts_by_ends(tree, balanced))
}
