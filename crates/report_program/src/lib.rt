// Inner: only the planner's own programs call it. A program that reads one sheet on standard input and writes its report, or the line of its refusal, to
// standard output. What a refusal means, and what could not be read or written, it says on standard error. Each function tells whether the sheet was read and its
// answer written.
#![tactic(auto)]

ghost use Rattle.std.specs.Prelude.{IsTrue, IfSome};
ghost use Rattle.std.specs.Io.KnownBytes.{Appends};
ghost use Rattle.report_program.specs.Printed.{sheet_in, plan_printed, span_printed};

use model::{BYTES, REPORT};
use std::io::{Read, Write};

// Plans the sheet on standard input, in whole circuits or in halves. One byte more than a sheet may have is enough to see that it has too many.
pub fn run<R: Read, W: Write, E: Write>(
    input: &mut R,
    out: &mut W,
    err: &mut E,
    whole: bool,
) -> bool
    ensures { IsTrue result → IfSome (R.remaining input.old) (λ given.
        Appends (W.contents out.old) (W.contents out.new) (plan_printed whole (sheet_in given))) }
{
    let mut sheet = [0u8; BYTES + 1];
    let given = text_streams::read(input, err, &mut sheet);
    if !given.whole {
        return false;
    }
    let n = given.count;
    let mut printed = [0u8; REPORT];
    match planner::report_on(whole, &sheet[..n], &mut printed) {
        Ok(length) => text_streams::write(out, err, &printed[..length]),
        Err(refusal) => text_refusals::refuse(out, err, refusal.number, refusal.line),
    }
}

// Tells the span of the range sheet on standard input (02, Card 11).
pub fn span<R: Read, W: Write, E: Write>(input: &mut R, out: &mut W, err: &mut E) -> bool
    ensures { IsTrue result → IfSome (R.remaining input.old) (λ given.
        Appends (W.contents out.old) (W.contents out.new) (span_printed (sheet_in given))) }
{
    let mut sheet = [0u8; BYTES + 1];
    let given = text_streams::read(input, err, &mut sheet);
    if !given.whole {
        return false;
    }
    let n = given.count;
    let mut printed = [0u8; REPORT];
    match spans::span(&sheet[..n], &mut printed) {
        Ok(length) => text_streams::write(out, err, &printed[..length]),
        Err(refusal) => text_refusals::refuse(out, err, refusal.number, refusal.line),
    }
}
