// Inner: the pairs that a line may ask for (02, Card 6): two different ends with no other end on their path. Only the planner's own crates call it.
#![tactic(auto)]

ghost use Rattle.std.specs.Prelude.{true, not, ◌≡◌, ◌≤◌, eqb};
ghost use Rattle.model.specs.Limits.{SITES};
ghost use Rattle.model.specs.Flows.{Site};
ghost use Rattle.model.specs.Parts.{another, crossed, free_pair};
ghost use Rattle.lists.specs.Numbers.{look};
ghost use Rattle.theory_trees.specs.Leaves.{Outer};
ghost use Rattle.tree.specs.Offer.{links};
ghost use Rattle.log_paths.specs.Tables.{Mapped};

use model::{PLACES, ROWS};

// Whether a site is an end other than a and b.
fn another(ends: &[u8; PLACES], a: usize, b: usize, site: usize) -> bool
    requires { site ≤ SITES }
    ensures { result ≡ eqb (another (look ends.now) a b site) 1 }
{
    if site == a {
        return false;
    }
    if site == b {
        return false;
    }
    ends[site] == 1
}

// Whether another end stands on the path of two sites: at a link between them.
fn crossed(
    n: usize,
    one: &[usize],
    two: &[usize],
    rows: &[u64; ROWS],
    ends: &[u8; PLACES],
    a: usize,
    b: usize,
) -> bool
    requires { Mapped n one.now two.now rows.now × Site n a × Site n b }
    ensures { result ≡ not (eqb (crossed (links one.now two.now) (look ends.now) a b) 0) }
{
    let path = log_paths::between(rows, a, b);
    for link in path.members() {
        if another(ends, a, b, one[link]) {
            return true;
        }
        if another(ends, a, b, two[link]) {
            return true;
        }
    }
    false
}

// Stays: `outer` chooses no step of its own, but tells what was shown of the ends, by the clause on `Outer`.
// Whether two sites are two different ends with no other end on their path, which is looked through unless each end is known to have one link.
pub fn free(
    n: usize,
    one: &[usize],
    two: &[usize],
    rows: &[u64; ROWS],
    ends: &[u8; PLACES],
    outer: bool,
    a: usize,
    b: usize,
) -> bool
    requires { Mapped n one.now two.now rows.now × Site n a × Site n b
        × (outer ≡ true → Outer (links one.now two.now) n (look ends.now)) }
    ensures { result ≡ eqb (free_pair (links one.now two.now) (look ends.now) a b) 1 }
{
    if ends[a] != 1 {
        return false;
    }
    if ends[b] != 1 {
        return false;
    }
    if a == b {
        return false;
    }
    if outer {
        return true;
    }
    !crossed(n, one, two, rows, ends, a, b)
}
