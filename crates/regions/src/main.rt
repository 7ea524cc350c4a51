// Two regions that share one link (document 02, Card 10), by two sheets that the arguments name as files: for each region its sum and, for each of its links,
// its trimmed size; or the line of the refusal. What a refusal means, and what could not be read or written, it says on standard error.
#![tactic(auto)]

use model::{BYTES, SITES};
use std::env::Env;
use std::io::Write;
use std::process::ExitCode;
use std::rt::Files;

// Writes what is printed for one region to standard output; whether all of it went.
fn write_region<W: Write, E: Write>(
    out: &mut W,
    err: &mut E,
    number: u64,
    sum: u64,
    sheet: &[u8],
    sizes: &[u64; SITES],
) -> bool {
    let mut text = [0u8; 65536];
    let length = region_report::write_region(number, sum, sheet, sizes, &mut text);
    text_streams::write(out, err, &text[..length])
}

// Exchanges between the regions of the two sheets; whether both were read and the answer written.
fn run<R: Env + Files, W: Write, E: Write>(rt: &R, out: &mut W, err: &mut E) -> bool {
    let mut text = [0u8; BYTES + 1];
    let input = text_streams::read_file(rt, err, 1, &mut text);
    if !input.whole {
        return false;
    }
    let mut text2 = [0u8; BYTES + 1];
    let input2 = text_streams::read_file(rt, err, 2, &mut text2);
    if !input2.whole {
        return false;
    }
    let n = input.count;
    let n2 = input2.count;
    let mut sizes = [0u64; SITES];
    let mut sizes2 = [0u64; SITES];
    match exchanges::exchange(&text[..n], &text2[..n2], &mut sizes, &mut sizes2) {
        Ok(both) => {
            write_region(out, err, 1, both.first.sum, &text[..n], &sizes)
                && write_region(out, err, 2, both.second.sum, &text2[..n2], &sizes2)
        }
        Err(refusal) => {
            text_refusals::refuse_sheets(out, err, refusal.text, refusal.number, refusal.line)
        }
    }
}

fn main(rt: HostRuntime) -> ExitCode {
    let went = run(&rt, &mut rt.stdout(), &mut rt.stderr());
    text_streams::status(went)
}
