// The order of work over a sheet (document 02, Card 3): always the lowest-numbered untaken site with at most one unvisited link.
#![tactic(auto)]

ghost use Rattle.std.specs.Prelude.{◌≡◌};
ghost use Rattle.model.specs.Edition.{editions};
ghost use Rattle.model.specs.Trimming.{elimination};
ghost use Rattle.tree.specs.Offer.{links};
ghost use Rattle.planner.specs.Taken.{Listed};
ghost use Rattle.orders.specs.Outcome.{store, order_of};

use model::Refusal;
use sheet::Lists;
use tree::AcceptedTree;

// An order into the front of a lent list; a list with fewer places keeps its values.
fn store(order: &[usize], list: &mut [usize]) -> Result<usize, Refusal>
    ensures told { result ≡ (store order.now list.old).outcome }
    ensures left { list.new ≡ (store order.now list.old).list }
{
    if list.len() < order.len() {
        return Err(Refusal { number: 9, line: 0 });
    }
    for i in 0..order.len() {
        list[i] = order[i];
    }
    Ok(order.len())
}

// The elimination order of a tree into the front of a lent list.
fn order_tree(tree: AcceptedTree, list: &mut [usize]) -> Result<usize, Refusal>
    ensures told { result ≡ (store (elimination (links tree.entry.one.now tree.entry.two.now) tree.entry.sites) list.old).outcome }
    ensures left { list.new ≡ (store (elimination (links tree.entry.one.now tree.entry.two.now) tree.entry.sites) list.old).list }
{
    let order = tree::eliminate(tree.sites, tree.one, tree.two, tree.marks, tree.capacity).sites;
    store(&order[..tree.sites], list)
}

// The order of work over the network of an accepted sheet.
fn order_network(sheet: &[u8], network: &Lists, list: &mut [usize]) -> Result<usize, Refusal>
    requires { Listed sheet.now network.now }
    ensures told { result ≡ (order_of editions sheet.now list.old).outcome }
    ensures left { list.new ≡ (order_of editions sheet.now list.old).list }
{
    order_tree(listed_trees::tree_of(network), list)
}

// Writes the numbers of all sites of a sheet, in the order taken, into the front of a lent list and tells their count; or refuses the sheet, or a list
// with fewer places than sites, and leaves the list as it was.
pub fn order(sheet: &[u8], list: &mut [usize]) -> Result<usize, Refusal>
    ensures told { result ≡ (order_of editions sheet.now list.old).outcome }
    ensures left { list.new ≡ (order_of editions sheet.now list.old).list }
{
    match &sheet::read(sheet) {
        Ok(network) => order_network(sheet, network, list),
        Err(refusal) => Err(*refusal),
    }
}
