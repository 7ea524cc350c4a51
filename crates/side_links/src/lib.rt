// Inner: the shared link in one region by itself (document 02, Card 10): the link that two names mean. Only the planner's own crates call it.
#![tactic(auto)]

ghost use Rattle.std.specs.Prelude.{◌≡◌, length};
ghost use Rattle.sheet_names.specs.Names.{lookup, ranges, Distinct};
ghost use Rattle.region_links.specs.Partners.{site_found};
ghost use Rattle.region_sizes.specs.Offered.{region_of};
ghost use Rattle.side_links.specs.SharedLink.{link_of};

use model::SITES;
use tree::AcceptedTree;

// The link that two sites may share: the one between them, where one of them has a single link and no mark; the number of links where there is none.
fn link_of(tree: AcceptedTree, x: usize, y: usize) -> usize
    ensures { result ≡ link_of (region_of tree.entry) x y }
{
    let none = tree.one.len();
    if x == y {
        return none;
    }
    let link = region_links::shared_second(tree.one, tree.two, x, y);
    if link >= none {
        return none;
    }
    if region_sizes::lone(tree, x) {
        return link;
    }
    if region_sizes::lone(tree, y) {
        return link;
    }
    none
}

// The link that two names mean, in either case and in either order; the number of links where there is none.
pub fn named_link(
    sheet: &[u8],
    starts: &[usize; SITES],
    stops: &[usize; SITES],
    tree: AcceptedTree,
    name: &[u8],
    name2: &[u8],
) -> usize
    requires { Distinct sheet.now (ranges starts.now stops.now 0 tree.sites) }
    ensures { result ≡ link_of (region_of tree.entry)
        (site_found (lookup sheet.now (ranges starts.now stops.now 0 tree.entry.sites) name.now))
        (site_found (lookup sheet.now (ranges starts.now stops.now 0 tree.entry.sites) name2.now)) }
{
    let n = tree.sites;
    let table = sheet_names::index(sheet, starts, stops, n);
    let found = sheet_names::find(sheet, starts, stops, n, &table, name);
    let found2 = sheet_names::find(sheet, starts, stops, n, &table, name2);
    link_of(tree, found.unwrap_or(0), found2.unwrap_or(0))
}
