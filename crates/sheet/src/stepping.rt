// What a line of a network sheet adds to the network read so far (document 01, "The network sheet"), or its refusal.
ghost use Rattle.std.specs.Prelude.{◌≡◌, ◌+◌, ◌≤◌, ◌<◌, length};
ghost use Rattle.model.specs.Limits.{PLACES, SITES};
ghost use Rattle.model.specs.Flows.{Links};
ghost use Rattle.text_lines.specs.Lines.{line_at};
ghost use Rattle.sheet_kinds.specs.FormedLines.{Formed};
ghost use Rattle.sheet_names.specs.Names.{ranges, Indexes};
ghost use Rattle.sheet_scan.specs.Scan.{scanned};
ghost use Rattle.sheet.specs.Sheet.{Network, site_step, link_step, heading_step, record_step, step_of};
ghost use Rattle.sheet.specs.Held.{LabelsOf, Held};
ghost use Rattle.sheet.specs.StepCases.{Labelled};

use model::{Edition, PLACES, Refusal, SITES};
use sheet_kinds::Line;
use sheet_names::TABLE;
use sheet_scan::Scanned;

// What a line adds to the network.
#[derive(Clone, Copy)]
pub enum Step {
    Nothing,
    Site { start: usize, end: usize, mark: u8 },
    Link { one: usize, two: usize, size: u64 },
}

// What a site line adds, its name being the part from a start to an end, with its mark, by what the look-up of the name found.
fn site_step(
    edition: Edition,
    here: usize,
    sites: usize,
    found: Option<usize>,
    start: usize,
    end: usize,
    mark: u8,
) -> Result<Step, Refusal>
    ensures { result ≡ site_step edition here sites (start, end) mark found }
{
    if sites >= edition.sites {
        return Err(Refusal {
            number: 4,
            line: here,
        });
    }
    if found.is_some() {
        return Err(Refusal {
            number: 5,
            line: here,
        });
    }
    Ok(Step::Site { start, end, mark })
}

// What a link line adds, by what the look-ups of its two names found, and the parents of the sites.
fn link_step(
    here: usize,
    parents: &[u16; PLACES],
    first: Option<usize>,
    second: Option<usize>,
    size: u64,
) -> Result<Step, Refusal>
    requires { Labelled PLACES first × Labelled PLACES second }
    ensures { (ls : Links) → LabelsOf ls parents.now → result ≡ link_step here ls size first second }
{
    let Some(one) = first else {
        return Err(Refusal {
            number: 6,
            line: here,
        });
    };
    let Some(two) = second else {
        return Err(Refusal {
            number: 6,
            line: here,
        });
    };
    if tree_parents::root(parents, one) == tree_parents::root(parents, two) {
        return Err(Refusal {
            number: 7,
            line: here,
        });
    }
    Ok(Step::Link { one, two, size })
}

// What line 1 adds.
fn heading_step(edition: Edition, line: &[u8]) -> Result<Step, Refusal>
    ensures { result ≡ heading_step edition line.now }
{
    if sheet_kinds::is_heading(line, edition) {
        return Ok(Step::Nothing);
    }
    Err(Refusal { number: 2, line: 1 })
}

// What a later line adds, at an offset.
fn record_step(
    edition: Edition,
    here: usize,
    sheet: &[u8],
    starts: &[usize; SITES],
    ends: &[usize; SITES],
    sites: usize,
    table: &[u16; TABLE],
    parents: &[u16; PLACES],
    at: usize,
    line: Result<Line, u64>,
) -> Result<Step, Refusal>
    requires { (sites ≤ SITES) × Indexes sheet.now (ranges starts.now ends.now 0 sites) table.now
        × (at + length (line_at sheet.now at) < length sheet.now) × Formed edition.size (line_at sheet.now at) line }
    ensures { (net : Network) → Held starts.now ends.now sites parents.now net
        → result ≡ record_step edition sheet.now net here at line }
{
    match line {
        Ok(Line::Site { start, end, mark }) => {
            let from = at + start;
            let to = at + end;
            let found = sheet_names::find(sheet, starts, ends, sites, table, &sheet[from..to]);
            site_step(edition, here, sites, found, from, to, mark)
        }
        Ok(
            Line::Link {
                start,
                end,
                start2,
                end2,
                size,
            },
        ) => {
            let from = at + start;
            let to = at + end;
            let from2 = at + start2;
            let to2 = at + end2;
            let first = sheet_names::find(sheet, starts, ends, sites, table, &sheet[from..to]);
            let second = sheet_names::find(sheet, starts, ends, sites, table, &sheet[from2..to2]);
            link_step(here, parents, first, second, size)
        }
        Err(number) => Err(Refusal { number, line: here }),
    }
}

// What the line at an offset, as it was scanned, adds, `number` being its number, to any network that the lists and the parents hold.
pub fn step_at<'a>(
    edition: Edition,
    sheet: &[u8],
    found: Scanned,
    starts: &'a [usize; SITES],
    ends: &'a [usize; SITES],
    sites: usize,
    table: &[u16; TABLE],
    parents: &[u16; PLACES],
    number: usize,
    at: usize,
) -> Result<Step, Refusal>
    requires { (sites ≤ SITES) × Indexes sheet.now (ranges starts.now ends.now 0 sites) table.now × (at ≤ length sheet.now)
        × (found ≡ scanned edition sheet.now at) }
    ensures { (net : Network) → Held starts.now ends.now sites parents.now net
        → result ≡ step_of edition sheet.now net number at }
{
    if found.end >= sheet.len() {
        return Err(Refusal {
            number: 2,
            line: number,
        });
    }
    if number == 1 {
        let line = text_lines::line(sheet, at);
        return heading_step(edition, line);
    }
    let kind = found.line;
    record_step(
        edition, number, sheet, starts, ends, sites, table, parents, at, kind,
    )
}
