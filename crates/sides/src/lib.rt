// One region by itself (document 02, Card 10), in two steps: what it shows of the shared link, and its answer for the one number that the neighbour shows.
#![tactic(auto)]

ghost use Rattle.std.specs.Prelude.{◌≡◌};
ghost use Rattle.model.specs.Edition.{editions};
ghost use Rattle.planner.specs.Taken.{Listed};
ghost use Rattle.sides.specs.Outcome.{first_shown, answered};

use exchanges::Answer;
use model::Refusal;
use sheet::Lists;
use tree_links::Chart;

// The first step over the network of an accepted sheet.
fn show_network(sheet: &[u8], network: &Lists, name: &[u8], name2: &[u8]) -> Result<u64, Refusal>
    requires { Listed sheet.now network.now }
    ensures { result ≡ first_shown editions sheet.now name.now name2.now }
{
    let tree = listed_trees::tree_of(network);
    let link = side_links::named_link(sheet, &network.start, &network.end, tree, name, name2);
    if link >= tree.one.len() {
        return Err(Refusal {
            number: 18,
            line: 0,
        });
    }
    Ok(region_sizes::first_size(&Chart::of(tree), link))
}

// The first step: tells this region's first trimmed size of the link that two names mean; or refuses the sheet, or names that mean no link to share.
pub fn first_size(sheet: &[u8], name: &[u8], name2: &[u8]) -> Result<u64, Refusal>
    ensures { result ≡ first_shown editions sheet.now name.now name2.now }
{
    match sheet::read(sheet) {
        Ok(network) => show_network(sheet, &network, name, name2),
        Err(refusal) => Err(refusal),
    }
}

// The second step over the network of an accepted sheet.
fn answer_network(
    sheet: &[u8],
    network: &Lists,
    name: &[u8],
    name2: &[u8],
    number: u64,
    sizes: &mut [u64],
) -> Result<Answer, Refusal>
    requires { Listed sheet.now network.now }
    ensures told { result ≡ (answered editions sheet.now name.now name2.now number sizes.old).outcome }
    ensures left { sizes.new
        ≡ (answered editions sheet.now name.now name2.now number sizes.old).list }
{
    let tree = listed_trees::tree_of(network);
    let count = tree.one.len();
    let link = side_links::named_link(sheet, &network.start, &network.end, tree, name, name2);
    let refusal = Refusal {
        number: 18,
        line: 0,
    };
    if link >= count {
        return Err(refusal);
    }
    if number > tree.capacity[link] {
        return Err(refusal);
    }
    if sizes.len() < count {
        return Err(Refusal { number: 9, line: 0 });
    }
    let sum = region_sizes::give(tree, link, number, sizes);
    Ok(Answer { count, sum })
}

// The second step: writes the trimmed sizes that the region is given for the neighbour's number into the front of a lent list, in sheet order, and tells their
// number and their sum over its own ends' links; or refuses the sheet, names that mean no link to share, a number that passes this link's usable size, or a
// list with fewer places than links, and leaves the list as it was.
pub fn answer(
    sheet: &[u8],
    name: &[u8],
    name2: &[u8],
    number: u64,
    sizes: &mut [u64],
) -> Result<Answer, Refusal>
    ensures told { result ≡ (answered editions sheet.now name.now name2.now number sizes.old).outcome }
    ensures left { sizes.new
        ≡ (answered editions sheet.now name.now name2.now number sizes.old).list }
{
    match sheet::read(sheet) {
        Ok(network) => answer_network(sheet, &network, name, name2, number, sizes),
        Err(refusal) => Err(refusal),
    }
}
