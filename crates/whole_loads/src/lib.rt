// Inner: the loads and the end sets of the report in whole circuits (02, Card 2), and the number of its odd pieces. Only the planner's own crates call it.
#![tactic(auto)]

ghost use Rattle.std.specs.Prelude.{◌≡◌, ℕ, ◌*◌, ◌≤◌, ◌<◌, length, take};
ghost use Rattle.model.specs.Limits.{SITES, SIZE};
ghost use Rattle.lists.specs.Numbers.{over, look};
ghost use Rattle.model.specs.Edition.{largest};
ghost use Rattle.model.specs.Trimming.{elimination};
ghost use Rattle.theory_whole.specs.Counting.{odd_at};
ghost use Rattle.tree.specs.Accepted.{TreeWithin};
ghost use Rattle.tree.specs.Offer.{links};
ghost use Rattle.tree.specs.Places.{filled};
ghost use Rattle.whole_notes.specs.Notes.{Within, note};
ghost use Rattle.whole_loops.specs.Ways.{Given};
ghost use Rattle.whole_loads.specs.Solved.{odd_by, EndsAmong, Solved};

use model::{PLACES, SITES};
use whole_notes::Note;

// The load of each of m links, that of its child, at the front of a lent list.
fn link_loads(m: usize, child: &[u16; SITES], notes: &[Note; PLACES], lent: &mut [u64])
    requires { (m ≤ SITES) × (m ≤ length lent.old) × ((j : ℕ) → j < m → look child.now j ≤ SITES)
        × ((x : ℕ) → Within (SITES * SIZE) (note notes.now x)) }
    ensures { lent.new ≡ filled (λ j. (note notes.now (look child.now j)).load) m lent.old }
{
    for j in 0..m {
        let here = notes[usize::from(child[j])];
        lent[j] = u64::from(here.load);
    }
}

// The terminal whose set holds each site, or 0.
fn owners(notes: &[Note; PLACES]) -> [u16; PLACES]
    ensures { (x : ℕ) → look result x ≡ (note notes.now x).owner }
{
    let mut owner = [0; PLACES];
    for x in 0..PLACES {
        owner[x] = notes[x].owner;
    }
    owner
}

// 1 if an odd piece is counted at a site: the site is in no set, its parent is in one or its link to the parent connects nothing, and the capacities
// below it and above it sum to an odd number.
fn odd_at(owner: u16, up: u16, most: u32, capacity: u32) -> usize
    requires { (most ≤ SITES * SIZE) × (capacity ≤ SIZE) }
    ensures { result ≡ odd_by owner up most capacity }
{
    let odd = ((most + capacity) % 2) as usize;
    if owner != 0 {
        return 0;
    }
    if up != 0 {
        return odd;
    }
    if capacity == 0 {
        return odd;
    }
    0
}

// The number of odd pieces, each counted at the site of it that is taken last.
fn odd_pieces(
    n: usize,
    order: &[usize; SITES],
    parent: &[u16; PLACES],
    above: &[u32; PLACES],
    notes: &[Note; PLACES],
) -> usize
    requires { Given n order.now parent.now above.now × ((x : ℕ) → Within (SITES * SIZE) (note notes.now x)) }
    ensures { result ≡ over (take n order.now) (odd_at (look parent.now) (look above.now) (λ x. (note notes.now x).most)
        (λ x. (note notes.now x).owner)) }
{
    let mut odd = 0;
    for &v in &order[..n] {
        let here = notes[v];
        let up = notes[usize::from(parent[v])];
        odd += odd_at(here.owner, up.owner, here.most, above[v]);
    }
    odd
}

// The loads of a largest plan in whole circuits at the front of a lent list, and the terminal whose set holds each site; the number of odd pieces.
#[inline(never)]
pub fn solve(
    n: usize,
    order: &[usize; SITES],
    ends: &[u8; PLACES],
    one: &[usize],
    two: &[usize],
    capacity: &[u64],
    lent: &mut [u64],
    owner: &mut [u16; PLACES],
) -> usize
    requires { TreeWithin largest n one.now two.now capacity.now
        × (take n order.now ≡ elimination (links one.now two.now) n)
        × EndsAmong (links one.now two.now) n (look ends.now)
        × (length one.now ≤ length lent.old) }
    ensures { Solved (links one.now two.now) n (look ends.now) (look capacity.now)
        lent.old lent.new owner.new result }
{
    let up = whole_parents::parents_of(n, order, one, two, capacity);
    let notes = whole_loops::both_ways(n, order, &up.parent, &up.above, ends);
    link_loads(one.len(), &up.child, &notes, lent);
    *owner = owners(&notes);
    odd_pieces(n, order, &up.parent, &up.above, &notes)
}
