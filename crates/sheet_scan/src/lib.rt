// Inner: a line of a network sheet (document 01, "The network sheet"): where it ends and what it is, in one scan where that leaves no doubt, and else
// as `text_lines` and `sheet_kinds` find it. Only the planner's own crates call it.
#![tactic(auto)]

ghost use Rattle.std.specs.Prelude.{true, ◌≡◌, ◌+◌, ◌≤◌, ◌<◌, length};
ghost use Rattle.text_fields.specs.Fields.{is_letter_or_digit};
ghost use Rattle.sheet_scan.specs.Scan.{scanned, Run, SomeLetter, NameFound, DigitsFound, NumberFound, one_number, NumbersFound};
ghost use Rattle.sheet_scan.specs.Scan.{LetterTab, letter_of, QuickFound};

use model::{Edition, Sizing};
use sheet_kinds::Line;

// A line of a sheet: what it is, or the number of its refusal, the offset at which it ends, and that of the next line.
#[derive(Clone, Copy, PartialEq, Eq, Debug)]
pub struct Scanned {
    pub line: Result<Line, u64>,
    pub end: usize,
    pub next: usize,
}

// A number on the sheet: the offset at which it ends, and its value.
#[derive(Clone, Copy)]
struct Number {
    end: usize,
    value: u64,
}

// The numbers of a link line: the offset at which they and the line end, and their values; 0 stands for a second one that is not there.
#[derive(Clone, Copy)]
struct Numbers {
    end: usize,
    first: u64,
    second: u64,
}

// What one scan finds: what the line is and the offset at which it ends.
#[derive(Clone, Copy)]
struct Quick {
    line: Line,
    end: usize,
}

// Whether each of so many bytes at an offset is a letter or a digit, without a branch for each byte.
fn are_named(sheet: &[u8], at: usize, width: usize) -> bool
    requires { at + width ≤ length sheet.now }
    ensures { result ≡ true → Run is_letter_or_digit sheet.now at (at + width) }
{
    let mut good = true;
    for i in 0..width {
        good = good & text_fields::is_letter_or_digit(sheet[at + i]);
    }
    good
}

// The offset behind the letters and digits at an offset, or behind 12 of them: those of the longest name are seen at once.
fn run_end(sheet: &[u8], from: usize) -> usize
    requires { from + 12 < length sheet.now }
    ensures { (from ≤ result) × (result ≤ from + 12) × Run is_letter_or_digit sheet.now from result }
{
    if are_named(sheet, from, 12) {
        return from + 12;
    }
    let most = 12;
    for i in 0..most {
        if !text_fields::is_letter_or_digit(sheet[from + i]) {
            return from + i;
        }
    }
    from + most
}

// Whether some byte between two offsets is above the digits.
fn has_letter(sheet: &[u8], from: usize, end: usize) -> bool
    requires { end ≤ length sheet.now }
    ensures { result ≡ true → SomeLetter sheet.now from end }
{
    for i in from..end {
        if b'9' < sheet[i] {
            return true;
        }
    }
    false
}

// The offset at which the name at an offset ends, where the given byte follows it; none where that is in doubt.
fn name_end(sheet: &[u8], from: usize, stop: u8) -> Option<usize>
    requires { from ≤ length sheet.now }
    ensures { NameFound sheet.now from stop result }
{
    if sheet.len() - from < 13 {
        return None;
    }
    let end = run_end(sheet, from);
    if sheet[end] != stop {
        return None;
    }
    if !has_letter(sheet, from, end) {
        return None;
    }
    Some(end)
}

// The digits at an offset, of which there are at most seven; none where there are more.
fn digits_at(sheet: &[u8], from: usize) -> Option<Number>
    requires { from + 8 ≤ length sheet.now }
    ensures { DigitsFound sheet.now from result }
{
    let mut value: u64 = 0;
    for i in from..from + 8 {
        let b = sheet[i];
        if !text_fields::is_digit(b) {
            return Some(Number { end: i, value });
        }
        value = value * 10 + u64::from(b - b'0');
    }
    None
}

// The number at an offset, where it is at most `most`; none where that is in doubt.
fn number_at(sheet: &[u8], from: usize, most: u64) -> Option<Number>
    requires { from ≤ length sheet.now }
    ensures { NumberFound sheet.now from most result }
{
    if sheet.len() - from < 8 {
        return None;
    }
    let Number { end, value } = digits_at(sheet, from)?;
    if end <= from {
        return None;
    }
    if value > most {
        return None;
    }
    if end == from + 1 {
        return Some(Number { end, value });
    }
    if sheet[from] == b'0' {
        return None;
    }
    Some(Number { end, value })
}

// The numbers of a link line that has one: a range sheet has two.
fn one_number(sizing: Sizing, end: usize, value: u64) -> Option<Numbers>
    ensures { result ≡ one_number sizing end value }
{
    match sizing {
        Sizing::Reserved => Some(Numbers {
            end,
            first: value,
            second: 0,
        }),
        Sizing::Low => None,
        Sizing::High => None,
    }
}

// The numbers of a link line, from its fourth field on; none where they are in doubt.
fn numbers_at(sheet: &[u8], from: usize, edition: Edition) -> Option<Numbers>
    requires { from ≤ length sheet.now }
    ensures { NumbersFound edition sheet.now from result }
{
    let Number { end, value } = number_at(sheet, from, edition.size)?;
    if sheet[end] == b'\n' {
        return one_number(edition.sizing, end, value);
    }
    if sheet[end] != b'\t' {
        return None;
    }
    let Number {
        end: last,
        value: other,
    } = number_at(sheet, end + 1, edition.size)?;
    if sheet[last] != b'\n' {
        return None;
    }
    Some(Numbers {
        end: last,
        first: value,
        second: other,
    })
}

// A site line, its mark given, from its letter on; none where it is in doubt.
fn quick_site(sheet: &[u8], at: usize, mark: u8, edition: Edition) -> Option<Quick>
    requires { LetterTab sheet.now at (letter_of mark) × (mark ≤ 1) }
    ensures { QuickFound edition sheet.now at result }
{
    let end = name_end(sheet, at + 2, b'\n')?;
    Some(Quick {
        line: Line::Site {
            start: 2,
            end: end - at,
            mark,
        },
        end,
    })
}

// A link line, from its letter on; none where it is in doubt.
fn quick_link(sheet: &[u8], at: usize, edition: Edition) -> Option<Quick>
    requires { LetterTab sheet.now at 76 }
    ensures { QuickFound edition sheet.now at result }
{
    let end = name_end(sheet, at + 2, b'\t')?;
    let two = end + 1;
    let end2 = name_end(sheet, two, b'\t')?;
    let numbers = numbers_at(sheet, end2 + 1, edition)?;
    let capacity = sheet_sizes::paired(edition.sizing, numbers.first, numbers.second);
    let size = capacity.ok()?;
    Some(Quick {
        line: Line::Link {
            start: 2,
            end: end - at,
            start2: two - at,
            end2: end2 - at,
            size,
        },
        end: numbers.end,
    })
}

// What one scan of the line at an offset finds; none where it leaves a doubt.
fn in_one_scan(sheet: &[u8], at: usize, edition: Edition) -> Option<Quick>
    requires { at ≤ length sheet.now }
    ensures { QuickFound edition sheet.now at result }
{
    if sheet.len() - at < 2 {
        return None;
    }
    if sheet[at + 1] != b'\t' {
        return None;
    }
    let letter = sheet[at];
    if letter == b'L' {
        return quick_link(sheet, at, edition);
    }
    if letter == b'N' {
        return quick_site(sheet, at, 0, edition);
    }
    if letter == b'T' {
        return quick_site(sheet, at, 1, edition);
    }
    None
}

// The line at an offset, found part by part.
fn in_parts(sheet: &[u8], at: usize, edition: Edition) -> Scanned
    requires { at ≤ length sheet.now }
    ensures { result ≡ scanned edition sheet.now at }
{
    let line = text_lines::line(sheet, at);
    let end = at + line.len();
    Scanned {
        line: sheet_kinds::classify(line, edition),
        end,
        next: text_lines::rest(sheet, end),
    }
}

// The line at an offset.
pub fn scan(sheet: &[u8], at: usize, edition: Edition) -> Scanned
    requires { at ≤ length sheet.now }
    ensures { result ≡ scanned edition sheet.now at }
{
    match in_one_scan(sheet, at, edition) {
        None => in_parts(sheet, at, edition),
        Some(Quick { line, end }) => Scanned {
            line: Ok(line),
            end,
            next: end + 1,
        },
    }
}
