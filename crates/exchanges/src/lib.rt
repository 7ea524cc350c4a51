// Two regions that share one link (document 02, Card 10): each is given its trimmed sizes of the joined tree, by its own sheet and one number of the other's.
#![tactic(auto)]

ghost use Rattle.std.specs.Prelude.{◌≡◌, ◌<◌, length};
ghost use Rattle.model.specs.Edition.{editions};
ghost use Rattle.planner.specs.Taken.{Listed};
ghost use Rattle.region_sizes.specs.Offered.{region_of};
ghost use Rattle.exchanges.specs.Outcome.{exchanged};
ghost use Rattle.exchanges.specs.Taken.{deliver_between};

use model::{Refusal, TextRefusal};
use sheet::Lists;
use tree::AcceptedTree;

// What a region is told: the number of its trimmed sizes, which stand in its lent list, and their sum over its own ends' links.
#[derive(Clone, Copy, PartialEq, Eq, Debug)]
pub struct Answer {
    pub count: usize,
    pub sum: u64,
}

// What both regions are told.
#[derive(Clone, Copy, PartialEq, Eq, Debug)]
pub struct Answers {
    pub first: Answer,
    pub second: Answer,
}

// The answers for two regions that share one link, by its number in each: each is given its trimmed sizes, at the front of its lent list, and their sum; or the
// first list with fewer places than its region has links is refused.
fn deliver(
    tree: AcceptedTree,
    link: usize,
    tree2: AcceptedTree,
    link2: usize,
    sizes: &mut [u64],
    sizes2: &mut [u64],
) -> Result<Answers, TextRefusal>
    requires { (link < length tree.one.now) × (link2 < length tree2.one.now) }
    ensures told { result ≡ (deliver_between (region_of tree.entry) link (region_of tree2.entry) link2 sizes.old sizes2.old).outcome }
    ensures left { sizes.new
        ≡ (deliver_between (region_of tree.entry) link (region_of tree2.entry) link2 sizes.old sizes2.old).first }
    ensures left2 { sizes2.new
        ≡ (deliver_between (region_of tree.entry) link (region_of tree2.entry) link2 sizes.old sizes2.old).second }
{
    let count = tree.one.len();
    let count2 = tree2.one.len();
    if sizes.len() < count {
        return Err(Refusal { number: 9, line: 0 }.in_text(1));
    }
    if sizes2.len() < count2 {
        return Err(Refusal { number: 9, line: 0 }.in_text(2));
    }
    let sums = region_giving::give_both(tree, link, tree2, link2, sizes, sizes2);
    Ok(Answers {
        first: Answer {
            count,
            sum: sums.first,
        },
        second: Answer {
            count: count2,
            sum: sums.second,
        },
    })
}

// The exchange between the networks of two accepted sheets, each lent as a tree.
fn exchange_networks(
    first: &[u8],
    network: &Lists,
    second: &[u8],
    network2: &Lists,
    sizes: &mut [u64],
    sizes2: &mut [u64],
) -> Result<Answers, TextRefusal>
    requires { Listed first.now network.now × Listed second.now network2.now }
    ensures told { result ≡ (exchanged editions first.now second.now sizes.old sizes2.old).outcome }
    ensures left { sizes.new
        ≡ (exchanged editions first.now second.now sizes.old sizes2.old).first }
    ensures left2 { sizes2.new
        ≡ (exchanged editions first.now second.now sizes.old sizes2.old).second }
{
    let tree = listed_trees::tree_of(network);
    let tree2 = listed_trees::tree_of(network2);
    let partners = region_links::partners(
        first,
        &network.start,
        &network.end,
        tree.sites,
        second,
        &network2.start,
        &network2.end,
        tree2.sites,
    );
    match region_sharing::sharing(tree, tree2, &partners) {
        Some(shared) => deliver(tree, shared.first, tree2, shared.second, sizes, sizes2),
        None => Err(TextRefusal {
            text: 0,
            number: 18,
            line: 0,
        }),
    }
}

// The exchange between the network of an accepted sheet and a second sheet.
fn exchange_second(
    first: &[u8],
    network: &Lists,
    second: &[u8],
    sizes: &mut [u64],
    sizes2: &mut [u64],
) -> Result<Answers, TextRefusal>
    requires { Listed first.now network.now }
    ensures told { result ≡ (exchanged editions first.now second.now sizes.old sizes2.old).outcome }
    ensures left { sizes.new
        ≡ (exchanged editions first.now second.now sizes.old sizes2.old).first }
    ensures left2 { sizes2.new
        ≡ (exchanged editions first.now second.now sizes.old sizes2.old).second }
{
    match sheet::read(second) {
        Ok(network2) => exchange_networks(first, network, second, &network2, sizes, sizes2),
        Err(refusal) => Err(refusal.in_text(2)),
    }
}

// The exchange between two regions by their sheets: writes the trimmed sizes of each, in sheet order, into the front of its lent list, and tells their number
// and their sum over its own ends' links; or refuses a sheet, sheets that do not share one link, or a list with fewer places than its region has links, and
// leaves both lists as they were.
pub fn exchange(
    first: &[u8],
    second: &[u8],
    sizes: &mut [u64],
    sizes2: &mut [u64],
) -> Result<Answers, TextRefusal>
    ensures told { result ≡ (exchanged editions first.now second.now sizes.old sizes2.old).outcome }
    ensures left { sizes.new
        ≡ (exchanged editions first.now second.now sizes.old sizes2.old).first }
    ensures left2 { sizes2.new
        ≡ (exchanged editions first.now second.now sizes.old sizes2.old).second }
{
    match sheet::read(first) {
        Ok(network) => exchange_second(first, &network, second, sizes, sizes2),
        Err(refusal) => Err(refusal.in_text(1)),
    }
}
