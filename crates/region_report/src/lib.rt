// Inner: only the planner's own programs call it. The text of a region's answer (document 02, Card 10): a heading, and a line for each link of its sheet with
// its trimmed size. Each function writes from a place of the buffer on, as those of text_writers do.
#![tactic(auto)]

ghost use Rattle.std.specs.Prelude.{◌+◌, ◌≤◌, length};
ghost use Rattle.model.specs.Edition.{editions};
ghost use Rattle.model.specs.Limits.{REPORT};
ghost use Rattle.planner.specs.Taken.{Listed};
ghost use Rattle.text_writers.specs.Wrote.{Wrote};
ghost use Rattle.region_report.specs.Lines.{links_text};
ghost use Rattle.region_report.specs.TwoRegions.{region_text};
ghost use Rattle.region_report.specs.OneRegion.{first_text, answer_text};
ghost use Rattle.region_report.specs.Laws.{size_line};

use model::SITES;
use sheet::Lists;
use text_writers::{put_bytes, put_letter, put_number, put_numbers};

// The line of a link: its two names and its size.
fn size_line(first: &[u8], second: &[u8], size: u64, buf: &mut [u8], at: usize) -> usize
    requires { (length first.now ≤ 12) × (length second.now ≤ 12) × (at + 60 ≤ REPORT) }
    ensures { Wrote buf.old at (size_line first.now second.now size) buf.new result
        × (result ≤ at + 60) }
{
    let letter = put_letter(buf, at, b'L', 9);
    let name = put_bytes(buf, letter, first, 9);
    let next = put_bytes(buf, name, second, 9);
    put_number(buf, next, size, 10)
}

// The lines of the links of an accepted sheet.
fn size_lines(
    sheet: &[u8],
    network: &Lists,
    sizes: &[u64; SITES],
    buf: &mut [u8],
    at: usize,
) -> usize
    requires { Listed sheet.now network.now × (at ≤ 256) }
    ensures { Wrote buf.old at (links_text editions sheet.now sizes.now) buf.new result
        × (result ≤ REPORT) }
{
    let mut next = at;
    for j in 0..network.links {
        let v = network.one[j] - 1;
        let w = network.two[j] - 1;
        let first = sheet_names::part(sheet, network.start[v], network.end[v]);
        let second = sheet_names::part(sheet, network.start[w], network.end[w]);
        next = size_line(first, second, sizes[j], buf, next);
    }
    next
}

// The lines of all links of a sheet, with their sizes, from a place of the buffer on; none where it is refused.
pub fn write_links(sheet: &[u8], sizes: &[u64; SITES], buf: &mut [u8], at: usize) -> usize
    requires { at ≤ 256 }
    ensures { Wrote buf.old at (links_text editions sheet.now sizes.now) buf.new result
        × (result ≤ REPORT) }
{
    match &sheet::read(sheet) {
        Ok(network) => size_lines(sheet, network, sizes, buf, at),
        Err(_) => at,
    }
}

// What is printed for one of two regions, from the start of the buffer, and its length.
pub fn write_region(
    number: u64,
    sum: u64,
    sheet: &[u8],
    sizes: &[u64; SITES],
    buf: &mut [u8],
) -> usize
    ensures { Wrote buf.old 0 (region_text editions number sum sheet.now sizes.now) buf.new result
        × (result ≤ REPORT) }
{
    let word = put_bytes(buf, 0, b"region", 9);
    let at = put_numbers(buf, word, number, sum);
    write_links(sheet, sizes, buf, at)
}

// What is printed for one region in its first step, from the start of the buffer, and its length.
pub fn write_first(size: u64, buf: &mut [u8]) -> usize
    ensures { Wrote buf.old 0 (first_text size) buf.new result × (result ≤ 256) }
{
    let word = put_bytes(buf, 0, b"first", 9);
    put_number(buf, word, size, 10)
}

// What is printed for one region in its second step, from the start of the buffer, and its length.
pub fn write_answer(sum: u64, sheet: &[u8], sizes: &[u64; SITES], buf: &mut [u8]) -> usize
    ensures { Wrote buf.old 0 (answer_text editions sum sheet.now sizes.now) buf.new result
        × (result ≤ REPORT) }
{
    let word = put_bytes(buf, 0, b"region", 9);
    let at = put_number(buf, word, sum, 10);
    write_links(sheet, sizes, buf, at)
}
