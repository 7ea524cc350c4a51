// The labels of sites: sites that links join have the same label. Place x has the label of site x, and place 0 is unused.
#![tactic(auto)]

ghost use Rattle.std.specs.Prelude.{◌≡◌};
ghost use Rattle.model.specs.Limits.{PLACES};
ghost use Rattle.lists.specs.Numbers.{upfrom};
ghost use Rattle.model.specs.Flows.{relabel};
ghost use Rattle.tree_labels.specs.Labels.{linked, whole};

use model::PLACES;

// The labels before the first link: every site has its own number.
pub fn own_labels() -> [u16; PLACES]
    ensures { result ≡ upfrom 0 PLACES }
{
    let mut labels = [0u16; PLACES];
    for x in 0..PLACES {
        labels[x] = x as u16;
    }
    labels
}

// p in the place of q.
fn relabel(p: u16, q: u16, label: u16) -> u16
    ensures { result ≡ relabel p q label }
{
    if label == q { p } else { label }
}

// The labels with one link more: those of its second site become that of its first. A number that has no place is no site, and joins nothing.
pub fn join(labels: &mut [u16], one: usize, two: usize)
    ensures { labels.new ≡ linked labels.old one two }
{
    if labels.len() <= one || labels.len() <= two {
        return;
    }
    let p = labels[one];
    let q = labels[two];
    for label in labels.iter_mut() {
        *label = relabel(p, q, *label);
    }
}

// Whether there are two sites or more, each has a place, and all have the label of site 1.
pub fn is_whole(labels: &[u16], sites: usize) -> bool
    ensures { result ≡ whole labels.now sites }
{
    if sites < 2 || labels.len() <= sites {
        return false;
    }
    let label = labels[1];
    labels[1..=sites].iter().all(|other| *other == label)
}
