// A tree that is offered as lists: whether it is one within the limits of the edition, and the elimination order of its sites.
#![tactic(auto)]

ghost use Rattle.std.specs.Prelude.{◌≡◌, ℕ, ◌<◌, length};
ghost use Rattle.lists.specs.Numbers.{look};
ghost use Rattle.model.specs.Edition.{largest};
ghost use Rattle.tree_order.specs.Steps.{Link, Proper};
ghost use Rattle.tree.specs.Offer.{within, offer_of, offer};
ghost use Rattle.tree.specs.Elimination.{decide, eliminated, eliminated_toward};
ghost use Rattle.tree.specs.Steps.{Tells, Ordered};

mod accepted;

pub use accepted::AcceptedTree;
use model::{SITES, SIZE};

// Why an offered tree with capacities is not accepted.
#[derive(Clone, Copy, PartialEq, Eq, Debug)]
pub enum Unfit {
    // no tree of two or more sites within the limits
    NoTree,
    // a capacity above the limit
    TooLarge,
}

// Whether every capacity of a list is within a limit.
pub fn capacities_within(most: u64, list: &[u64]) -> bool
    ensures { result ≡ within 0 most list.now }
{
    list.iter().all(|size| *size <= most)
}

// Whether a and b are two different sites from 1 to n.
fn is_link(n: usize, a: usize, b: usize) -> bool
    ensures { Tells result (Link n a b) }
{
    1 <= a && a <= n && 1 <= b && b <= n && a != b
}

// Whether every link joins two different sites from 1 to n.
fn all_links(n: usize, one: &[usize], two: &[usize]) -> bool
    requires { length one.now ≡ length two.now }
    ensures { Tells result ((j : ℕ) → j < length one.now → Link n (look one.now j) (look two.now j)) }
{
    for j in 0..one.len() {
        if !is_link(n, one[j], two[j]) {
            return false;
        }
    }
    true
}

// Whether there are 2 to SITES sites and one link less, each between two different sites.
fn is_proper(n: usize, one: &[usize], two: &[usize]) -> bool
    ensures { Tells result (Proper n one.now two.now) }
{
    if n < 2 {
        return false;
    }
    if SITES < n {
        return false;
    }
    if one.len() != n - 1 {
        return false;
    }
    if two.len() != n - 1 {
        return false;
    }
    all_links(n, one, two)
}

// Whether n sites and their links are a tree of 2 to SITES sites, and then the order of its sites toward a root.
fn order_of(n: usize, one: &[usize], two: &[usize], root: usize) -> Option<[usize; SITES]>
    ensures { Ordered n one.now two.now root result }
{
    if !is_proper(n, one, two) {
        return None;
    }
    if n < root {
        return tree_order::order_of(n, one, two, 0);
    }
    tree_order::order_of(n, one, two, root)
}

// What is said of an offer, by whether it is a tree with a mark for each site, how many its links are, and the capacities.
fn offer_of(tree: bool, links: usize, capacity: &[u64]) -> Result<(), Unfit>
    ensures { result ≡ offer_of largest tree links capacity.now }
{
    if !tree || capacity.len() != links {
        return Err(Unfit::NoTree);
    }
    if !capacities_within(SIZE, capacity) {
        return Err(Unfit::TooLarge);
    }
    Ok(())
}

// What is said of an offered tree, and the elimination order of its sites: 0 past the last site, and everywhere if it is refused.
// Stays: callers that have shown that their tree is accepted take the order as it is, with no Result of all SITES places to unwrap.
#[derive(Clone, Copy)]
pub struct Elimination {
    pub offer: Result<(), Unfit>,
    pub sites: [usize; SITES],
}

// The order if the offer is accepted, else 0 everywhere.
fn kept(offer: Result<(), Unfit>, order: [usize; SITES]) -> [usize; SITES]
    ensures { result ≡ (decide offer order).sites }
{
    match offer {
        Ok(()) => order,
        Err(_) => [0usize; SITES],
    }
}

// What is said of an offer of n sites, the two sites of each link, the marks and the capacities, and the elimination order that takes the root last.
// A root that is no site changes nothing; the order looks at no marks.
pub fn eliminate_toward(
    n: usize,
    one: &[usize],
    two: &[usize],
    marks: &[u8],
    capacity: &[u64],
    root: usize,
) -> Elimination
    ensures { result ≡ eliminated_toward n one.now two.now marks.now capacity.now root }
{
    let Some(order) = order_of(n, one, two, root) else {
        return Elimination {
            offer: Err(Unfit::NoTree),
            sites: [0usize; SITES],
        };
    };
    let offer = offer_of(marks.len() == n, one.len(), capacity);
    let sites = kept(offer, order);
    Elimination { offer, sites }
}

// What is said of an offer of n sites, the two sites of each link, the marks and the capacities, and the elimination order.
pub fn eliminate(
    n: usize,
    one: &[usize],
    two: &[usize],
    marks: &[u8],
    capacity: &[u64],
) -> Elimination
    ensures { result ≡ eliminated n one.now two.now marks.now capacity.now }
{
    eliminate_toward(n, one, two, marks, capacity, 0)
}

// What is said of an offer of n sites, the two sites of each link, the marks and the capacities.
pub fn test(
    n: usize,
    one: &[usize],
    two: &[usize],
    marks: &[u8],
    capacity: &[u64],
) -> Result<(), Unfit>
    ensures { result ≡ offer largest n one.now two.now marks.now capacity.now }
{
    eliminate(n, one, two, marks, capacity).offer
}
