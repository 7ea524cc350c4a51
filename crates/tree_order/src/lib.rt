// Inner: the elimination order of the sites of a tree, by the links that each site has left. Only the planner's own crates call it.
// A link's share is 65536 more than its position, and a site's key the sum of the shares of its unvisited links:
// with at most one such link it is below 131072, and with just one it is that link's share. A taken site has the key 131072.
#![tactic(auto)]

ghost use Rattle.std.specs.Prelude.{◌≡◌, ◌≢◌, ℕ, suc, ◌+◌, ◌-◌, ◌*◌, ◌≤◌, ◌<◌, length, set, replicate};
ghost use Rattle.model.specs.Limits.{PLACES, SITES};
ghost use Rattle.lists.specs.Numbers.{pick, is, count, look};
ghost use Rattle.model.specs.Flows.{sites};
ghost use Rattle.tree_order.specs.Steps.{Proper, Counted, Lowest, Behind, Back, Onward, Ready, Took, Eliminated, OrderToward};

use model::{PLACES, SITES};

// Adds d at two places of a list.
fn add_at(list: &mut [usize; PLACES], a: usize, b: usize, d: usize)
    requires { (length list.old ≡ PLACES) × (a < PLACES) × (b < PLACES) × (a ≢ b) × (d ≤ 131072) × ((x : ℕ) → look list.old x ≤ SITES * 131072) }
    ensures { (length list.new ≡ PLACES) × ((x : ℕ) → look list.new x ≡ look list.old x + pick a x 1 (is b x) * d) }
{
    list[a] += d;
    list[b] += d;
}

// The key of each site, 131072 too high at the root so that it is never taken.
fn keys_of(one: &[usize], two: &[usize], root: usize) -> [usize; PLACES]
    requires { Proper (suc (length one.now)) one.now two.now × (root ≤ SITES) }
    ensures { Counted one.now two.now root result }
{
    let mut keys = [0usize; PLACES];
    keys[root] = 131072;
    for j in 0..one.len() {
        add_at(&mut keys, one[j], two[j], 65536 + j);
    }
    keys
}

// The lowest site from `from` to n with a key below 131072, 0 if there is none.
fn lowest_from(from: usize, n: usize, keys: &[usize; PLACES]) -> usize
    requires { (1 ≤ from) × (from ≤ n) × (n ≤ SITES) }
    ensures { Lowest from n keys.now result }
{
    for x in from..n + 1 {
        if keys[x] < 131072 {
            return x;
        }
    }
    0
}

// Where to look for the lowest site with a key below 131072: at the site `back`, if it is not 0, else from `from` on.
#[derive(Clone, Copy)]
struct Search {
    from: usize,
    back: usize,
}

// The lowest site with a key below 131072, 0 if there is none.
fn lowest(search: Search, n: usize, keys: &[usize; PLACES]) -> usize
    requires { (n ≤ SITES) × Behind n keys.now search }
    ensures { Lowest 1 n keys.now result }
{
    if search.back != 0 {
        return search.back;
    }
    lowest_from(search.from, n, keys)
}

// Site w if it stands behind `from` and its key is below 131072, else 0.
fn behind(w: usize, key: usize, from: usize) -> usize
    ensures { Back w key from result }
{
    if from <= w {
        return 0;
    }
    if key < 131072 { w } else { 0 }
}

// Where to look once v is taken: of the sites up to the highest taken so far only w, with this key, may have come into reach.
fn onward(search: Search, v: usize, w: usize, key: usize) -> Search
    ensures { Onward search v w key result }
{
    let from = search.from.max(v);
    Search {
        from,
        back: behind(w, key, from),
    }
}

// Takes site v with a key below 131072. The answer is the site at the other end of its link, which has that link less, or 0 if there is none.
fn take(v: usize, one: &[usize], two: &[usize], keys: &mut [usize; PLACES]) -> usize
    requires { Ready one.now two.now keys.old v }
    ensures { Took one.now two.now keys.old v result keys.new }
{
    let share = keys[v];
    keys[v] = 131072;
    if share == 0 {
        return 0;
    }
    let w = one[share - 65536] + two[share - 65536] - v;
    keys[w] -= share;
    w
}

// How many of n sites are not the root.
fn others(n: usize, root: usize) -> usize
    requires { root ≤ n }
    ensures { result ≡ n - count (sites n) root }
{
    if root == 0 { n } else { n - 1 }
}

// Takes always the lowest untaken site other than the root with at most one unvisited link, as long as there is one; whether all are taken.
fn take_all(
    n: usize,
    one: &[usize],
    two: &[usize],
    root: usize,
    mut keys: [usize; PLACES],
    sites: &mut [usize; SITES],
) -> bool
    requires { Proper n one.now two.now × (root ≤ n) × Counted one.now two.now root keys × (sites.old ≡ set (replicate SITES 0) (n - 1) root) }
    ensures { Eliminated n one.now two.now root sites.new result }
{
    let mut search = Search { from: 1, back: 0 };
    for i in 0..others(n, root) {
        let v = lowest(search, n, &keys);
        if v == 0 {
            return false;
        }
        sites[i] = v;
        let w = take(v, one, two, &mut keys);
        search = onward(search, v, w, keys[w]);
    }
    true
}

// The elimination order toward a root, which comes last, where the links make a tree; 0 stands for no root.
pub fn order_of(n: usize, one: &[usize], two: &[usize], root: usize) -> Option<[usize; SITES]>
    requires { Proper n one.now two.now × (root ≤ n) }
    ensures { OrderToward n one.now two.now root result }
{
    let mut sites = [0usize; SITES];
    sites[n - 1] = root;
    if !take_all(n, one, two, root, keys_of(one, two, root), &mut sites) {
        return None;
    }
    Some(sites)
}
