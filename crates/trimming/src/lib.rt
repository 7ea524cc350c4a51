// Balanced capacities of an offered tree (01: trimming), with its ends as terminals: each site with one link, and each marked one (02, Card 7).
#![tactic(auto)]

ghost use Rattle.std.specs.Prelude.{◌≡◌};
ghost use Rattle.trimming.specs.Outcome.{refused, answer, trimmed};

use tree::{AcceptedTree, Unfit};
use tree_links::Chart;

// Why the capacities of an offered tree are not balanced.
#[derive(Clone, Copy, PartialEq, Eq, Debug)]
pub enum Refused {
    // no tree of two or more sites within the limits, with a mark for each site
    NoTree,
    // a capacity above the limit
    TooLarge,
    // fewer lent places than links
    Short,
}

impl From<Unfit> for Refused {
    ghost from_gives = { λ why result. result ≡ refused why };

    fn from(why: Unfit) -> Refused {
        match why {
            Unfit::NoTree => Refused::NoTree,
            Unfit::TooLarge => Refused::TooLarge,
        }
    }
}

// Balances the capacities of an offered tree into a lent list.
pub fn trim(
    n: usize,
    one: &[usize],
    two: &[usize],
    marks: &[u8],
    capacity: &[u64],
    lent: &mut [u64],
) -> Result<(), Refused>
    ensures { (result ≡ answer n one.now two.now marks.now capacity.now lent.old)
        × (lent.new ≡ trimmed n one.now two.now marks.now capacity.now lent.old) }
{
    let found = tree::eliminate(n, one, two, marks, capacity);
    found.offer?;
    if lent.len() < one.len() {
        return Err(Refused::Short);
    }
    let tree = AcceptedTree {
        sites: n,
        one,
        two,
        marks,
        capacity,
    };
    let chart = Chart::by(tree, found.sites);
    trimming_passes::balance(&chart.chains, &chart.order, &chart.ends, capacity, lent);
    Ok(())
}
