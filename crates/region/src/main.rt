// One region by itself (document 02, Card 10), by its sheet, a file that the first argument names, and the two shared names: its first trimmed size of the
// shared link; with the neighbour's number as a fourth argument its sum and, for each of its links, its trimmed size; or the line of the refusal. What a refusal
// means, and what could not be read or written, it says on standard error.
#![tactic(auto)]

ghost use Rattle.std.specs.Prelude.{◌≡◌};
ghost use Rattle.region.specs.NumberText.{within, written};

use model::{BYTES, SITES, SIZE};
use std::env::Env;
use std::io::Write;
use std::process::ExitCode;
use std::rt::Files;

// What a well written number comes to: its value, or the number of a refusal.
fn within(size: Option<u64>) -> Result<u64, u64>
    ensures { result ≡ within size }
{
    match size {
        Some(value) => Ok(value),
        None => Err(3),
    }
}

// What the text of the neighbour's number comes to: 12 where it is badly written, then 3 where it is above the largest size.
fn written(text: &[u8]) -> Result<u64, u64>
    ensures { result ≡ written text.now }
{
    if !text_fields::is_number(text) {
        return Err(12);
    }
    within(text_grammar::size_of(text, SIZE))
}

// Writes what is printed for the first step to standard output; whether all of it went.
fn write_first<W: Write, E: Write>(out: &mut W, err: &mut E, size: u64) -> bool {
    let mut text = [0u8; 4096];
    let length = region_report::write_first(size, &mut text);
    text_streams::write(out, err, &text[..length])
}

// Writes what is printed for the second step to standard output; whether all of it went.
fn write_answer<W: Write, E: Write>(
    out: &mut W,
    err: &mut E,
    sum: u64,
    sheet: &[u8],
    sizes: &[u64; SITES],
) -> bool {
    let mut text = [0u8; 65536];
    let length = region_report::write_answer(sum, sheet, sizes, &mut text);
    text_streams::write(out, err, &text[..length])
}

// The second step, for the neighbour's number; whether its answer was written.
fn answer<W: Write, E: Write>(
    out: &mut W,
    err: &mut E,
    sheet: &[u8],
    name: &[u8],
    name2: &[u8],
    number: u64,
) -> bool {
    let mut sizes = [0u64; SITES];
    match sides::answer(sheet, name, name2, number, &mut sizes) {
        Ok(answer) => write_answer(out, err, answer.sum, sheet, &sizes),
        Err(refusal) => {
            if refusal.number == 18 {
                return text_refusals::refuse_in_words(
                    out,
                    err,
                    refusal.number,
                    b"the number is above the usable size of the shared link\n",
                );
            }
            text_refusals::refuse(out, err, refusal.number, refusal.line)
        }
    }
}

// The second step, for the number that the fourth argument tells; its refusals come after those of the first step. Whether its answer was written.
fn second_step<R: Env, W: Write, E: Write>(
    rt: &R,
    out: &mut W,
    err: &mut E,
    sheet: &[u8],
    name: &[u8],
    name2: &[u8],
) -> bool {
    let mut text = [0u8; 4096];
    let input = text_streams::read_argument(rt, err, 4, &mut text);
    if !input.whole {
        return false;
    }
    let n = input.count;
    match written(&text[..n]) {
        Ok(value) => answer(out, err, sheet, name, name2, value),
        Err(refusal) => {
            if refusal == 3 {
                return text_refusals::refuse_in_words(
                    out,
                    err,
                    refusal,
                    b"the number is above 1,000,000\n",
                );
            }
            text_refusals::refuse_in_words(
                out,
                err,
                refusal,
                b"the number is not written in decimal without a leading zero\n",
            )
        }
    }
}

// The first step, and where there is a fourth argument the second; whether the answer was written.
fn steps<R: Env, W: Write, E: Write>(
    rt: &R,
    out: &mut W,
    err: &mut E,
    sheet: &[u8],
    name: &[u8],
    name2: &[u8],
) -> bool {
    match sides::first_size(sheet, name, name2) {
        Ok(size) => {
            if text_streams::is_given(rt, 4) {
                return second_step(rt, out, err, sheet, name, name2);
            }
            write_first(out, err, size)
        }
        Err(refusal) => {
            if refusal.number == 18 {
                return text_refusals::refuse_in_words(
                    out,
                    err,
                    refusal.number,
                    b"no link joins the two names, or neither has a single link and no mark\n",
                );
            }
            text_refusals::refuse(out, err, refusal.number, refusal.line)
        }
    }
}

// Reads the sheet and the two names, and takes the steps; whether all was read and the answer written.
fn run<R: Env + Files, W: Write, E: Write>(rt: &R, out: &mut W, err: &mut E) -> bool {
    let mut text = [0u8; BYTES + 1];
    let input = text_streams::read_file(rt, err, 1, &mut text);
    if !input.whole {
        return false;
    }
    let mut name = [0u8; 4096];
    let first = text_streams::read_argument(rt, err, 2, &mut name);
    if !first.whole {
        return false;
    }
    let mut name2 = [0u8; 4096];
    let second = text_streams::read_argument(rt, err, 3, &mut name2);
    if !second.whole {
        return false;
    }
    let n = input.count;
    let a = first.count;
    let b = second.count;
    steps(rt, out, err, &text[..n], &name[..a], &name2[..b])
}

fn main(rt: HostRuntime) -> ExitCode {
    let went = run(&rt, &mut rt.stdout(), &mut rt.stderr());
    text_streams::status(went)
}
