// Inner: the two ways of a plan in whole circuits along an order of the sites (02, Card 2): intervals inward, loads and sets outward.
// Only the planner's own crates call it.
#![tactic(auto)]

ghost use Rattle.whole_loops.specs.Ways.{Given, Inward, Found};

use model::{PLACES, SITES};
use whole_notes::Note;

// The way inward: the sites of an order are taken in turn.
fn inward(
    n: usize,
    order: &[usize; SITES],
    parent: &[u16; PLACES],
    above: &[u32; PLACES],
    ends: &[u8; PLACES],
) -> [Note; PLACES]
    requires { Given n order.now parent.now above.now }
    ensures { Inward n order.now parent.now above.now ends.now result }
{
    let mut notes = [Note::default(); PLACES];
    for &v in &order[..n] {
        let site = v as u16;
        let p = usize::from(parent[v]);
        let here = notes[v];
        let up = notes[p];
        let rival = notes[usize::from(up.top)];
        let child = notes[usize::from(here.top)];
        let done = here.taken(ends[v], above[v], site, child);
        notes[v] = done;
        notes[p] = notes[p].joined(p, ends[p], rival.high, site, done.high);
    }
    notes
}

// What the two ways find along n sites of an order, from the parent of each site, the capacity of the link to it, and the terminals `ends`: after the way
// inward, on the way outward, the sites come in turn, the last one first.
pub fn both_ways(
    n: usize,
    order: &[usize; SITES],
    parent: &[u16; PLACES],
    above: &[u32; PLACES],
    ends: &[u8; PLACES],
) -> [Note; PLACES]
    requires { Given n order.now parent.now above.now }
    ensures { Found n order.now parent.now above.now ends.now result }
{
    let mut notes = inward(n, order, parent, above, ends);
    for i in (0..n).rev() {
        let v = order[i];
        let p = usize::from(parent[v]);
        let here = notes[v];
        let child = usize::from(here.top);
        notes[v] = here.come(above[v], v as u16, notes[p]);
        notes[child] = notes[child].loaded(ends[v], here.load + here.most);
    }
    notes
}
