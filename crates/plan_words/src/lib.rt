// Inner: only the planner's own programs call it. The verdict on a plan drawn by hand as a line, and its refusals in words.
#![tactic(auto)]

ghost use Rattle.std.specs.Prelude.{[], ◌∷◌, ◌++◌, ◌≤◌};
ghost use Rattle.text_writers.specs.Wrote.{Wrote};
ghost use Rattle.plan_words.specs.PlanWords.{verdict_line, plan_whole, plan_cause, plan_words, words_judged};

use text_writers::{put_bytes, put_number, put_part};

// A plan refused as a whole.
fn put_whole(buf: &mut [u8], number: u64) -> usize
    ensures { Wrote buf.old 0 (plan_whole number ++ (10 ∷ [])) buf.new result }
{
    match number {
        1 => put_bytes(
            buf,
            0,
            b"the plan: more than 65,536 bytes, or than 1,024 lines",
            b'\n',
        ),
        _ => put_bytes(
            buf,
            0,
            b"the plan: a load above twice the usable size of its link",
            b'\n',
        ),
    }
}

// What is wrong with a line of a plan, to the end of the line.
fn put_plan_cause(buf: &mut [u8], at: usize, number: u64) -> usize
    requires { at ≤ 100 }
    ensures { Wrote buf.old at (plan_cause number ++ (10 ∷ [])) buf.new result }
{
    match number {
        2 => put_bytes(buf, at, b"wrong letter or line ending", b'\n'),
        3 => put_bytes(buf, at, b"amount not from 1 to 2,000,000", b'\n'),
        6 => put_bytes(buf, at, b"not two ends free to be joined", b'\n'),
        20 => put_bytes(buf, at, b"pair given on an earlier line", b'\n'),
        _ => report_causes::put_cause(buf, at, number),
    }
}

// Why a plan is refused, a line of text from the start of the buffer, and its length.
fn put_plan(buf: &mut [u8], number: u64, line: usize) -> usize
    ensures { Wrote buf.old 0 (plan_words number line) buf.new result }
{
    if line == 0 {
        return put_whole(buf, number);
    }
    let word = put_part(buf, 0, b"the plan, line ");
    let next = put_number(buf, word, line as u64, b':');
    let at = put_part(buf, next, b" ");
    put_plan_cause(buf, at, number)
}

// What a refusal means (text 1 the sheet, 2 the plan), a line of text from the start of the buffer, and its length.
pub fn write_words(text: u64, number: u64, line: usize, buf: &mut [u8]) -> usize
    ensures { Wrote buf.old 0 (words_judged text number line) buf.new result }
{
    if text == 2 {
        return put_plan(buf, number, line);
    }
    report_words::write_words_of(text, number, line, buf)
}

// The line of a verdict from the start of the buffer, and its length.
pub fn write_verdict(total: u64, yes: bool, buf: &mut [u8]) -> usize
    ensures { Wrote buf.old 0 (verdict_line total yes) buf.new result × (result ≤ 40) }
{
    let word = put_bytes(buf, 0, b"judged", 9);
    let next = put_number(buf, word, total, 9);
    if yes {
        return put_bytes(buf, next, b"yes", b'\n');
    }
    put_bytes(buf, next, b"no", b'\n')
}
