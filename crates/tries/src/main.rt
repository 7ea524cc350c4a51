// Plans the sheets on standard input, each ended by byte 0, and prints the answer to each; then plans the first of them into a buffer just as long as
// its answer, and into one a byte shorter, and prints number, line and length.
#![tactic(auto)]

ghost use Rattle.std.specs.Prelude.{◌≤◌, length, IfOk};

use std::io;
use std::io::Write;

// The place of the first byte 0 from a place on, or the end.
fn sheet_end(text: &[u8], from: usize) -> usize
    requires { from ≤ length text.now }
    ensures { (from ≤ result) × (result ≤ length text.now) }
{
    for at in from..text.len() {
        if text[at] == 0 {
            return at;
        }
    }
    text.len()
}

// Prints the answer to one sheet, and tells its length.
fn answer<W: Write>(out: &mut W, sheet: &[u8]) -> io::Result<usize>
    ensures { IfOk result (λ length. length ≤ 65536) }
{
    let mut printed = [0u8; 65536];
    let length = planner::answer(sheet, &mut printed);
    out.write_all(&printed[..length])?;
    Ok(length)
}

// Prints a number and a byte after it.
fn tell<W: Write>(out: &mut W, n: u64, stop: u8) -> io::Result<()> {
    write!(out, "{n}")?;
    out.write_all(&[stop])
}

// Prints the number, line and length of planning a sheet into a buffer.
fn tell_plan<W: Write>(out: &mut W, sheet: &[u8], buf: &mut [u8]) -> io::Result<()> {
    match planner::plan(sheet, buf) {
        Ok(length) => {
            tell(out, 0, 9)?;
            tell(out, 0, 9)?;
            tell(out, length as u64, 10)
        }
        Err(refusal) => {
            tell(out, refusal.number, 9)?;
            tell(out, refusal.line as u64, 9)?;
            tell(out, 0, 10)
        }
    }
}

// Plans a sheet into a buffer of so many bytes.
fn plan_into<W: Write>(out: &mut W, sheet: &[u8], length: usize) -> io::Result<()>
    requires { length ≤ 65536 }
{
    let mut buf = [0u8; 65536];
    tell_plan(out, sheet, &mut buf[..length])
}

// Answers the sheets of a text, one after the other.
fn answer_all<W: Write>(out: &mut W, text: &[u8]) -> io::Result<()> {
    let mut at = 0;
    // Stays: the next sheet begins where this one is found to end, so there is no range or iterator to go over.
    while at < text.len() {
        let end = sheet_end(text, at);
        answer(out, &text[at..end])?;
        at = end + 1;
    }
    Ok(())
}

// Tries the sheets of a text.
fn try_all<W: Write>(out: &mut W, text: &[u8]) -> io::Result<()> {
    answer_all(out, text)?;
    let end = sheet_end(text, 0);
    let first = &text[..end];
    let length = answer(out, first)?;
    plan_into(out, first, length)?;
    if 0 < length {
        plan_into(out, first, length - 1)?;
    }
    Ok(())
}

fn main(rt: HostRuntime) -> io::Result<()> {
    let mut text = [0u8; 65536];
    let n = text_streams::read(&mut rt.stdin(), &mut rt.stderr(), &mut text).count;
    try_all(&mut rt.stdout(), &text[..n])
}
