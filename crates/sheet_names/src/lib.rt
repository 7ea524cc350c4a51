// Inner: the names of sites, as ranges of a sheet, and their look-up by a table of hashes. Sites whose names have one hash are chained.
#![tactic(auto)]

ghost use Rattle.std.specs.Prelude.{◌≡◌, ◌<◌, ◌≤◌, length};
ghost use Rattle.model.specs.Limits.{SITES};
ghost use Rattle.text_fields.specs.Fields.{caseless};
ghost use Rattle.sheet_names.specs.Names.{HASHES, part, IsPart, lookup, ranges, hash_from, hash, entered, Distinct, Indexes};

use model::{PLACES, SITES};

// The number of hashes. specs/Names.antt has this and the next by the same names.
pub const HASHES: usize = 4 * SITES;

// The places of the table: for each hash the newest site with it, and behind those, for each site the newest site before it with the same hash.
pub const TABLE: usize = HASHES + PLACES;

// The part of a sheet from a start to an end, that very part.
pub fn part(sheet: &[u8], start: usize, end: usize) -> &[u8]
    ensures { IsPart sheet.entry (start, end) result }
{
    let stop = end.min(sheet.len());
    if stop <= start {
        return &sheet[stop..stop];
    }
    &sheet[start..stop]
}

// The hash of a name of a few bytes, each without the bit by which a-z differ from A-Z.
fn hash_bytes(name: &[u8]) -> usize
    ensures { result ≡ hash_from 0 (caseless name.now) }
{
    let mut value = 0;
    for &byte in name {
        value = (value * 31 + usize::from(byte & 223)) % HASHES;
    }
    value
}

// The hash of a name, a place of the table: that of its last eight bytes, or of all of fewer. Names that are the same have one.
fn hash(name: &[u8]) -> usize
    ensures value { result ≡ hash name.now }
    ensures below { result < HASHES }
{
    if name.len() < 8 {
        return hash_bytes(name);
    }
    (text_fields::last_word(name) % 1531) as usize
}

// The table with one site more, whose name is the part from a start to an end: it is the newest with its hash, and the one that was comes before it.
// Only the planner's own crates call it.
pub fn enter(table: &mut [u16; TABLE], sheet: &[u8], start: usize, end: usize, site: usize)
    requires { (site ≤ SITES) × (start ≤ end) × (end ≤ length sheet.now) }
    ensures { table.new ≡ entered table.old (hash (part sheet.now (start, end))) site }
{
    let place = hash(&sheet[start..end]);
    table[HASHES + site] = table[place];
    table[place] = site as u16;
}

// The number of the site whose name is the same as a name, if there is one, the names of the sites being ranges of the sheet, by the table: from the newest
// site with the name's hash back to the oldest. Only the planner's own crates call it.
pub fn find(
    sheet: &[u8],
    starts: &[usize; SITES],
    ends: &[usize; SITES],
    sites: usize,
    table: &[u16; TABLE],
    name: &[u8],
) -> Option<usize>
    requires { (sites ≤ SITES) × Indexes sheet.now (ranges starts.now ends.now 0 sites) table.now }
    ensures { result ≡ lookup sheet.now (ranges starts.now ends.now 0 sites) name.now }
{
    let mut site = usize::from(table[hash(name)]);
    // Stays: the place goes on by links of the chain, not by one, so there is no range or iterator to go over.
    while 0 < site {
        let i = site - 1;
        let start = starts[i];
        let end = ends[i];
        let of_site = &sheet[start..end];
        let has_name = text_fields::same_name(of_site, name);
        if has_name {
            return Some(site);
        }
        site = usize::from(table[HASHES + site]);
    }
    None
}

// The table of the sites whose names, all different, are ranges that lie on the sheet. Only the planner's own crates call it.
pub fn index(
    sheet: &[u8],
    starts: &[usize; SITES],
    ends: &[usize; SITES],
    sites: usize,
) -> [u16; TABLE]
    requires { (sites ≤ SITES) × Distinct sheet.now (ranges starts.now ends.now 0 sites) }
    ensures { Indexes sheet.now (ranges starts.now ends.now 0 sites) result }
{
    let mut table = [0u16; TABLE];
    for i in 0..sites {
        enter(&mut table, sheet, starts[i], ends[i], i + 1);
    }
    table
}
