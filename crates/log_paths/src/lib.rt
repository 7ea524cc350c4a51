// Inner: the paths of a tree (02, Card 6): for each site the links between it and the root of the elimination order, as a row of bits; the path of two
// sites is where their rows differ. Only the planner's own crates call it.
#![tactic(auto)]

ghost use Rattle.std.specs.Prelude.{◌≡◌, ◌≢◌, ℕ, ◌≤◌, ◌<◌, eqb, length};
ghost use Rattle.model.specs.Limits.{ROWS, SITES};
ghost use Rattle.model.specs.Edition.{largest};
ghost use Rattle.lists.specs.Numbers.{look};
ghost use Rattle.tree.specs.Accepted.{MarkedTree};
ghost use Rattle.tree.specs.Offer.{links};
ghost use Rattle.log_paths.specs.Tables.{in_table, Table, PathBy};
ghost use Rattle.log_paths.specs.Rows.{single, Extended, Put, LinksUp, Outward, Spread};

use model::{PLACES, ROWS, SITES, WORDS};
use tree_sets::Set;

// Word q of the set that has only the number j.
fn single_word(q: usize, j: usize) -> u64
    ensures { result ≡ single q j }
{
    if j / 64 == q {
        return 1u64 << (j % 64);
    }
    0
}

// The row of site `far` from that of `near`, over link j.
fn extend(rows: &mut [u64; ROWS], near: usize, far: usize, j: usize)
    requires { (length rows.old ≡ ROWS) × (near ≤ SITES) × (far ≤ SITES) × (near ≢ far) }
    ensures { Extended near far j rows.old rows.new }
{
    for q in 0..WORDS {
        let word = rows[near * WORDS + q];
        rows[far * WORDS + q] = word ^ single_word(q, j);
    }
}

// The row of a site with one number more, which it did not have.
pub fn put(rows: &mut [u64; ROWS], site: usize, j: usize)
    requires { (length rows.old ≡ ROWS) × (site ≤ SITES) × (j < SITES) × (in_table rows.old j site ≡ 0) }
    ensures { Put site j rows.old rows.new }
{
    let place = site * WORDS + j / 64;
    rows[place] = rows[place] ^ single_word(j / 64, j);
}

// Whether a number is in the row of a site.
pub fn has(rows: &[u64; ROWS], site: usize, j: usize) -> bool
    requires { (site ≤ SITES) × (j < SITES) }
    ensures { result ≡ eqb (in_table rows.now j site) 1 }
{
    (rows[site * WORDS + j / 64] >> (j % 64)) % 2 == 1
}

// The number of the link to the parent of each site that is a link's child.
fn links_up(links: usize, child: &[u16; SITES]) -> [u16; PLACES]
    requires { (links ≤ SITES) × ((j : ℕ) → j < links → look child.now j ≤ SITES)
        × ((i j : ℕ) → i < links → j < links → look child.now i ≡ look child.now j → i ≡ j) }
    ensures { LinksUp links child.now result }
{
    let mut up = [0u16; PLACES];
    for j in 0..links {
        let c = child[j] as usize;
        up[c] = j as u16;
    }
    up
}

// The rows of n sites from the last of an order outward, each from that of its parent.
fn outward(
    n: usize,
    order: &[usize; SITES],
    parent: &[u16; PLACES],
    up: &[u16; PLACES],
) -> [u64; ROWS]
    requires { Outward n order.now parent.now up.now }
    ensures { Spread n order.now parent.now up.now 0 result }
{
    let mut rows = [0u64; ROWS];
    for i in (0..n - 1).rev() {
        let x = order[i];
        let near = parent[x] as usize;
        let link = up[x] as usize;
        extend(&mut rows, near, x, link);
    }
    rows
}

// The table of paths of a tree: for each site the links between it and the root, the site that is taken last.
pub fn paths(n: usize, one: &[usize], two: &[usize], marks: &[u8], capacity: &[u64]) -> [u64; ROWS]
    requires { MarkedTree largest n one.now two.now marks.now capacity.now }
    ensures { Table (links one.now two.now) n result }
{
    let tree = tree::eliminate(n, one, two, marks, capacity);
    let order = tree.sites;
    let parents = whole_parents::parents_of(n, &order, one, two, capacity);
    let child = parents.child;
    let parent = parents.parent;
    let up = links_up(one.len(), &child);
    outward(n, &order, &parent, &up)
}

// The links on the path of two sites: those that are in the row of just one of them.
pub fn between(rows: &[u64; ROWS], a: usize, b: usize) -> Set
    requires { (a ≤ SITES) × (b ≤ SITES) }
    ensures { PathBy rows.now a b result }
{
    let mut words = [0u64; WORDS];
    for q in 0..WORDS {
        words[q] = rows[a * WORDS + q] ^ rows[b * WORDS + q];
    }
    Set { words }
}
