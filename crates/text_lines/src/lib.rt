// The line reader (document 01, "The network sheet"): it stands over a lent sheet at an offset and hands out the line there as that very
// part of the sheet. The work is done by functions on slice and offset; the methods are thin.
#![tactic(auto)]

ghost use Rattle.std.specs.Prelude.{false, ◌≡◌, ◌+◌, ◌≤◌, length, drop};
ghost use Rattle.text_lines.specs.Lines.{line_length, line_start, line_end, after_line, has_line, IsLine};
ghost use Rattle.text_lines.specs.LineLaws.{NoTen};

// The offset at which the line at an offset starts: that offset, or the end of the sheet if it is past it.
fn line_start(sheet: &[u8], at: usize) -> usize
    ensures { result ≡ line_start sheet.now at }
{
    at.min(sheet.len())
}

// The offset at which a line ends that has at most one byte left on the sheet.
#[tactic(auto, using(crate::specs::LineLaws::line_past_the_sheet_is_empty, crate::specs::LineLaws::line_length_step))]
fn last_end(sheet: &[u8], end: usize) -> usize
    requires { (end ≤ length sheet.now) × (length sheet.now ≤ end + 1) }
    ensures { result ≡ end + line_length (drop end sheet.now) }
{
    if end >= sheet.len() {
        return end;
    }
    if sheet[end] == b'\n' {
        return end;
    }
    end + 1
}

// Whether byte 10 is one of the eight bytes at an offset, without a branch for each byte.
fn has_ten(sheet: &[u8], at: usize) -> bool
    requires { at + 8 ≤ length sheet.now }
    ensures { result ≡ false → NoTen sheet.now at 8 }
{
    let mut any = false;
    for b in &sheet[at..at + 8] {
        any |= *b == b'\n';
    }
    any
}

// An offset from which on a line ends where it does from a given one on: eight bytes without byte 10 are passed over at a time.
fn pass_over(sheet: &[u8], from: usize) -> usize
    requires { from ≤ length sheet.now }
    ensures { (result ≤ length sheet.now)
        × (result + line_length (drop result sheet.now) ≡ from + line_length (drop from sheet.now)) }
{
    let length = sheet.len();
    let mut end = from;
    // Stays: the place is what is asked for, so an iterator over groups of eight (`chunks_exact`) would have it counted beside the loop all the same.
    while 7 < length - end {
        if has_ten(sheet, end) {
            return end;
        }
        end += 8;
    }
    end
}

// The offset at which the line at an offset ends: that of its byte 10, or the end of the sheet.
fn line_end(sheet: &[u8], at: usize) -> usize
    ensures { result ≡ line_end sheet.now at }
{
    let mut end = pass_over(sheet, line_start(sheet, at));
    let length = sheet.len();
    // Stays: the place is what is asked for, from the one that `pass_over` found on by twos, so there is no range or iterator that gives it.
    while 1 < length - end {
        if sheet[end] == b'\n' {
            return end;
        }
        if sheet[end + 1] == b'\n' {
            return end + 1;
        }
        end += 2;
    }
    last_end(sheet, end)
}

// The line at an offset.
fn line_at(sheet: &[u8], at: usize) -> &[u8]
    ensures { IsLine sheet.entry at result }
{
    let start = line_start(sheet, at);
    let end = line_end(sheet, at);
    &sheet[start..end]
}

// The offset after the line at an offset and its byte 10.
#[tactic(auto, using(crate::specs::LineLaws::next_line_is_past_the_end, crate::specs::LineLaws::line_ends_on_sheet))]
fn after_line(sheet: &[u8], at: usize) -> usize
    ensures { result ≡ after_line sheet.now at }
{
    let end = line_end(sheet, at);
    if end < sheet.len() { end + 1 } else { end }
}

// A sheet and the offset of the next line on it (01: line reader).
// Stays: no `Iterator`, since those who read need the offset of each line too, by which names are places on the sheet, and an iterator over lines hides it.
#[derive(Clone, Copy)]
pub struct LineReader<'a> {
    pub sheet: &'a [u8],
    pub at: usize,
}

impl<'a> LineReader<'a> {
    // A reader at the first line of a sheet.
    pub fn new(sheet: &'a [u8]) -> LineReader<'a>
        ensures { (result.sheet ≡ sheet.entry) × (result.at ≡ 0) }
    {
        LineReader { sheet, at: 0 }
    }

    // Whether there is a line here.
    pub fn has_line(self) -> bool
        ensures { result ≡ has_line self.entry.sheet.now self.entry.at }
    {
        self.at < self.sheet.len()
    }

    // The line here, that very part of the sheet; no bytes where there is none.
    pub fn line(self) -> &'a [u8]
        ensures { IsLine self.entry.sheet self.entry.at result }
    {
        line_at(self.sheet, self.at)
    }

    // The reader after this line and its byte 10.
    pub fn rest(self) -> LineReader<'a>
        ensures { (result.sheet ≡ self.entry.sheet) × (result.at ≡ after_line self.entry.sheet.now self.entry.at) }
    {
        LineReader {
            sheet: self.sheet,
            at: after_line(self.sheet, self.at),
        }
    }
}

// Whether there is a line at an offset of a sheet.
pub fn has_line(sheet: &[u8], at: usize) -> bool
    ensures { result ≡ has_line sheet.now at }
{
    LineReader { sheet, at }.has_line()
}

// The line at an offset of a sheet.
pub fn line(sheet: &[u8], at: usize) -> &[u8]
    ensures { IsLine sheet.entry at result }
{
    LineReader { sheet, at }.line()
}

// The offset of the line after that at an offset of a sheet.
pub fn rest(sheet: &[u8], at: usize) -> usize
    ensures { result ≡ after_line sheet.now at }
{
    LineReader { sheet, at }.rest().at
}
