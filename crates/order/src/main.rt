// The order of work over the sheet on standard input (document 02, Card 3): a line for each site in the order taken, its number and its name; or the line of
// the refusal. What a refusal means, and what could not be read or written, it says on standard error.
#![tactic(auto)]

ghost use Rattle.std.specs.Prelude.{◌+◌, ◌≤◌, length};
ghost use Rattle.model.specs.Limits.{BYTES};

use model::{BYTES, SITES};
use std::io::{Read, Write};
use std::process::ExitCode;

// Writes the line of a site, its number and its name, to standard output, by a text in a frame of its own; whether all of it went.
#[inline(never)]
fn write_site<W: Write, E: Write>(out: &mut W, err: &mut E, site: usize, name: &[u8]) -> bool
    requires { length name.now ≤ BYTES + 1 }
{
    let mut text = [0u8; 65536];
    let next = text_writers::put_number(&mut text, 0, site as u64, 9);
    let length = text_writers::put_bytes(&mut text, next, name, 10);
    text_streams::write(out, err, &text[..length])
}

// Writes the lines of the first `count` sites of a list, whose names are ranges of the sheet; whether all of them went.
fn write_sites<W: Write, E: Write>(
    out: &mut W,
    err: &mut E,
    sheet: &[u8],
    start: &[usize; SITES],
    end: &[usize; SITES],
    list: &[usize; SITES],
    count: usize,
) -> bool
    requires { length sheet.now ≤ BYTES + 1 }
{
    for i in 0..SITES {
        if i >= count {
            return true;
        }
        let site = list[i];
        if site < 1 {
            return true;
        }
        if site > SITES {
            return true;
        }
        let name = sheet_names::part(sheet, start[site - 1], end[site - 1]);
        if !write_site(out, err, site, name) {
            return false;
        }
    }
    true
}

// Lists the sites of the sheet on standard input in the order of work; whether the sheet was read and its answer written.
fn run<R: Read, W: Write, E: Write>(input: &mut R, out: &mut W, err: &mut E) -> bool {
    let mut text = [0u8; BYTES + 1];
    let given = text_streams::read(input, err, &mut text);
    if !given.whole {
        return false;
    }
    let n = given.count;
    let sheet = &text[..n];
    let network = match sheet::read(sheet) {
        Ok(network) => network,
        Err(refusal) => return text_refusals::refuse(out, err, refusal.number, refusal.line),
    };
    let mut list = [0usize; SITES];
    match orders::order(sheet, &mut list) {
        Ok(count) => write_sites(out, err, sheet, &network.start, &network.end, &list, count),
        Err(refusal) => text_refusals::refuse(out, err, refusal.number, refusal.line),
    }
}

fn main(rt: HostRuntime) -> ExitCode {
    let went = run(&mut rt.stdin(), &mut rt.stdout(), &mut rt.stderr());
    text_streams::status(went)
}
