// Inner: only the planner's own crates call it. Where the fault is and what is wrong, in words. Each function writes from a place of the buffer on, as those of
// text_writers do.
#![tactic(auto)]

ghost use Rattle.std.specs.Prelude.{◌≡◌, ◌≢◌, [], ◌∷◌, ◌++◌};
ghost use Rattle.text_writers.specs.Wrote.{Wrote, Room};
ghost use Rattle.text_commas.specs.Commas.{grouped};
ghost use Rattle.report_causes.specs.CauseWords.{place, cause};

use model::SIZE;
use text_commas::put_grouped;
use text_writers::{put_bytes, put_number, put_part};

// A text and a limit, the end of a line.
fn put_limit(buf: &mut [u8], at: usize, text: &[u8], limit: u64) -> usize
    requires { Room at ((text.now ++ (32 ∷ [])) ++ (grouped limit ++ (10 ∷ []))) }
    ensures { Wrote buf.old at ((text.now ++ (32 ∷ [])) ++ (grouped limit ++ (10 ∷ []))) buf.new result }
{
    let next = put_bytes(buf, at, text, b' ');
    put_grouped(buf, next, limit, b'\n')
}

// Where the fault is.
pub fn put_place(buf: &mut [u8], at: usize, line: usize) -> usize
    requires { Room at (place line) }
    ensures { Wrote buf.old at (place line) buf.new result }
{
    if line == 0 {
        return put_part(buf, at, b"the sheet: ");
    }
    let word = put_part(buf, at, b"line ");
    let next = put_number(buf, word, line as u64, b':');
    put_part(buf, next, b" ")
}

// What is wrong, but for a size above its limit.
fn words(number: u64) -> &'static [u8]
    requires { number ≢ 3 }
    ensures { result.now ≡ cause number }
{
    match number {
        1 => b"no bytes, or more than 16,384 (edition 2: 24,576)",
        2 => b"wrong heading, letter or line ending",
        4 => b"more sites than 256 (edition 2: 384)",
        5 => b"name already given to a site",
        6 => b"link to a name not given on a line above",
        7 => b"link whose sites are already joined by links above, or are one site",
        8 => b"fewer than two sites, or not all sites are joined",
        9 => b"answer longer than the buffer or list for it",
        10 => b"wrong number of fields",
        11 => b"a name is not 1 to 12 letters or digits",
        12 => b"a number is not written in decimal without a leading zero",
        13 => b"reserve above the size",
        17 => b"name of digits only",
        18 => b"the two sheets do not share one link",
        19 => b"low size above the high size",
        _ => b"a cause without words",
    }
}

// What is wrong, to the end of the line.
pub fn put_cause(buf: &mut [u8], at: usize, number: u64) -> usize
    requires { Room at (cause number ++ (10 ∷ [])) }
    ensures { Wrote buf.old at (cause number ++ (10 ∷ [])) buf.new result }
{
    match number {
        3 => put_limit(buf, at, b"size or reserve above", SIZE),
        _ => put_bytes(buf, at, words(number), b'\n'),
    }
}
