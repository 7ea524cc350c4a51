// Reading a network sheet (document 01, "The network sheet"): from its bytes to the network and the names, or to its refusal.
#![tactic(auto)]

ghost use Rattle.std.specs.Prelude.{◌≡◌, ◌<◌, ◌≤◌, length};
ghost use Rattle.model.specs.Limits.{SITES};
ghost use Rattle.model.specs.Edition.{editions, ranges_low, ranges_high};
ghost use Rattle.sheet.specs.Sheet.{empty, read_lines, and_then, finish, read_as, edition_of, read_sheet, name_range};
ghost use Rattle.sheet_names.specs.Names.{IsPart};
ghost use Rattle.sheet.specs.Reading.{lists, site_stored, link_stored, reading, filled};

mod stepping;

use model::{Edition, Refusal, SITES};
use sheet_names::TABLE;
use stepping::Step;

// The network of a sheet: for each site the range of its name on the sheet and its mark (1 marked, 0 not), for each link its two sites and its capacity,
// each in the order of the sheet, with zeros behind them; and how many sites and links there are.
#[derive(Clone, Copy)]
pub struct Lists {
    pub start: [usize; SITES],
    pub end: [usize; SITES],
    pub mark: [u8; SITES],
    pub one: [usize; SITES],
    pub two: [usize; SITES],
    pub capacity: [u64; SITES],
    pub sites: usize,
    pub links: usize,
}

// A part of a sheet, from a start to an end.
#[derive(Clone, Copy)]
pub struct Range {
    pub start: usize,
    pub end: usize,
}

impl Lists {
    // The network of no sites.
    fn empty() -> Self
        ensures { result ≡ lists empty }
    {
        Lists {
            start: [0; SITES],
            end: [0; SITES],
            mark: [0; SITES],
            one: [0; SITES],
            two: [0; SITES],
            capacity: [0; SITES],
            sites: 0,
            links: 0,
        }
    }

    // One site more: the range of its name, and its mark.
    fn add_site(&mut self, start: usize, end: usize, mark: u8)
        requires { self.old.sites < SITES }
        ensures { self.new ≡ site_stored self.old start end mark }
    {
        let i = self.sites;
        self.start[i] = start;
        self.end[i] = end;
        self.mark[i] = mark;
        self.sites = i + 1;
    }

    // One link more: its two sites, and its capacity.
    fn add_link(&mut self, one: usize, two: usize, capacity: u64)
        requires { self.old.links < SITES }
        ensures { self.new ≡ link_stored self.old one two capacity }
    {
        let i = self.links;
        self.one[i] = one;
        self.two[i] = two;
        self.capacity[i] = capacity;
        self.links = i + 1;
    }
}

// What the lines of a sheet come to, read into the lists of no sites; a sheet that is refused leaves them as far as it was read.
fn read_lines(sheet: &[u8], edition: Edition, net: &mut Lists) -> Result<(), Refusal>
    requires { (edition.sites ≤ SITES) × (net.old ≡ lists empty) }
    ensures { filled result net.new ≡ reading (and_then (read_lines edition sheet.now (length sheet.now) 1 0 empty) finish) }
{
    let mut table = [0u16; TABLE];
    let mut parents = tree_labels::own_labels();
    let mut at = 0;
    let mut number = 1;
    // Stays: the next line begins where the scan of this one is found to end, so there is no range or iterator to go over.
    while text_lines::has_line(sheet, at) {
        let found = sheet_scan::scan(sheet, at, edition);
        let step = stepping::step_at(
            edition, sheet, found, &net.start, &net.end, net.sites, &table, &parents, number, at,
        )?;
        at = found.next;
        number += 1;
        match step {
            Step::Nothing => {}
            Step::Site { start, end, mark } => {
                net.add_site(start, end, mark);
                sheet_names::enter(&mut table, sheet, start, end, net.sites);
            }
            Step::Link { one, two, size } => {
                net.add_link(one, two, size);
                tree_parents::join(&mut parents, one, two);
            }
        }
    }
    tree_parents::settle(&mut parents);
    if !tree_labels::is_whole(&parents, net.sites) {
        return Err(Refusal { number: 8, line: 0 });
    }
    Ok(())
}

// A sheet read as one of an edition, into the lists of no sites: its network, or its refusal (01: check 1 comes first).
fn read_into(sheet: &[u8], edition: Edition, net: &mut Lists) -> Result<(), Refusal>
    requires { (edition.sites ≤ SITES) × (net.old ≡ lists empty) }
    ensures { filled result net.new ≡ reading (read_as edition sheet.now) }
{
    if sheet.len() < 1 {
        return Err(Refusal { number: 1, line: 0 });
    }
    let most = edition.bytes;
    if sheet.len() > most {
        return Err(Refusal { number: 1, line: 0 });
    }
    read_lines(sheet, edition, net)
}

// A sheet read as one of an edition, with lists of its own, and in a frame of its own, which is gone before the network is worked on.
#[inline(never)]
fn read_as(sheet: &[u8], edition: Edition) -> Result<Lists, Refusal>
    requires { edition.sites ≤ SITES }
    ensures { result ≡ reading (read_as edition sheet.now) }
{
    let mut net = Lists::empty();
    read_into(sheet, edition, &mut net)?;
    Ok(net)
}

// The edition of a sheet, by its line 1 (02, Card 8).
fn edition_of(sheet: &[u8]) -> Edition
    ensures { result ≡ edition_of editions sheet.now }
{
    let second = Edition::second();
    if sheet_kinds::is_heading(text_lines::line(sheet, 0), second) {
        return second;
    }
    Edition::first()
}

// A sheet read, as one of its edition.
pub fn read(sheet: &[u8]) -> Result<Lists, Refusal>
    ensures { result ≡ reading (read_sheet editions sheet.now) }
{
    read_as(sheet, edition_of(sheet))
}

// A range sheet read (02, Card 11), its low sizes taken for the capacities.
pub fn read_low(sheet: &[u8]) -> Result<Lists, Refusal>
    ensures { result ≡ reading (read_as ranges_low sheet.now) }
{
    read_as(sheet, Edition::low())
}

// A range sheet read, its high sizes taken for the capacities.
pub fn read_high(sheet: &[u8]) -> Result<Lists, Refusal>
    ensures { result ≡ reading (read_as ranges_high sheet.now) }
{
    read_as(sheet, Edition::high())
}

// Where the name of a site stands on the sheet, by the site's number; 0 to 0 for a number without a site, or over a sheet that is refused.
pub fn name_range(sheet: &[u8], site: usize) -> Range
    ensures { (result.start, result.end) ≡ name_range editions sheet.now site }
{
    let edition = edition_of(sheet);
    if site < 1 {
        return Range { start: 0, end: 0 };
    }
    if site > edition.sites {
        return Range { start: 0, end: 0 };
    }
    let mut net = Lists::empty();
    let Ok(()) = read_into(sheet, edition, &mut net) else {
        return Range { start: 0, end: 0 };
    };
    let i = site - 1;
    Range {
        start: net.start[i],
        end: net.end[i],
    }
}

// The name of a site, by its number: the bytes of its own `N` or `T` line, that very part of the sheet; an empty part for a number without a site, or
// over a sheet that is refused.
pub fn name(sheet: &[u8], site: usize) -> &[u8]
    ensures { IsPart sheet.entry (name_range editions sheet.now site) result }
{
    let range = name_range(sheet, site);
    sheet_names::part(sheet, range.start, range.end)
}
