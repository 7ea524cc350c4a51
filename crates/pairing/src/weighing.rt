// Whether the capacities of a tree have a heavy link (01: a link heavy at some joint).
ghost use Rattle.std.specs.Prelude.{◌≡◌, ◌-◌, ◌≤◌, ltb};
ghost use Rattle.model.specs.Limits.{SITES};
ghost use Rattle.lists.specs.Numbers.{look};
ghost use Rattle.tree.specs.Offer.{links};
ghost use Rattle.pairing.specs.Weighing.Heavy.{heavy_at, heavy_somewhere};

use model::PLACES;
use tree_links::Chains;

// Whether a link of capacity t is larger than the other links have together at a site whose links have the sum.
fn is_heavy(t: u64, sum: u64) -> bool
    requires { t ≤ sum }
    ensures { result ≡ ltb (sum - t) t }
{
    sum - t < t
}

// Whether v is an inner site with a heavy link.
fn heavy_at(chains: &Chains, v: usize, ends: &[u8; PLACES]) -> bool
    requires { v ≤ SITES }
    ensures { result ≡ heavy_at (links chains.now.tree.one.now chains.now.tree.two.now) (look ends.now) (look chains.now.tree.capacity.now) v }
{
    if ends[v] == 1 {
        return false;
    }
    let capacity = chains.tree.capacity;
    let sum = chains.sum_at(v, capacity);
    let mut p = chains.last[v];
    // Stays: the place goes on by links of the chain, not by one, so there is no range or iterator to go over.
    while 0 < p {
        if is_heavy(capacity[p - 1], sum) {
            return true;
        }
        p = chains.link_before(v, p - 1);
    }
    false
}

// Whether some inner site has a heavy link.
pub fn heavy(chains: &Chains, ends: &[u8; PLACES]) -> bool
    ensures { result ≡ heavy_somewhere (links chains.now.tree.one.now chains.now.tree.two.now) chains.now.tree.sites (look ends.now) (look chains.now.tree.capacity.now) }
{
    for v in 1..chains.tree.sites + 1 {
        if heavy_at(chains, v, ends) {
            return true;
        }
    }
    false
}
