// The exercise book on standard output (document 02, Card 13): a line for each tree of 2 to 5 sites with sizes 0 to 2, in order. What could not be written it
// says on standard error, and stops there.
#![tactic(auto)]

use std::io::Write;
use std::process::ExitCode;

// Writes the page of a choice of links between so many sites; whether all of it went.
fn write_page<W: Write, E: Write>(out: &mut W, err: &mut E, sites: usize, choice: usize) -> bool {
    let mut text = [0u8; 4096];
    match books::page(sites, choice, &mut text) {
        Ok(length) => text_streams::write(out, err, &text[..length]),
        Err(refusal) => {
            text_refusals::refuse(out, err, refusal.number, refusal.line);
            false
        }
    }
}

// Writes the pages for so many sites; whether all of them went.
fn write_pages<W: Write, E: Write>(out: &mut W, err: &mut E, sites: usize) -> bool {
    for choice in 0..books::choices(sites) {
        if !write_page(out, err, sites, choice) {
            return false;
        }
    }
    true
}

// Writes the pages of the whole book; whether all of them went.
fn run<W: Write, E: Write>(out: &mut W, err: &mut E) -> bool {
    for sites in 2..6 {
        if !write_pages(out, err, sites) {
            return false;
        }
    }
    true
}

fn main(rt: HostRuntime) -> ExitCode {
    let went = run(&mut rt.stdout(), &mut rt.stderr());
    text_streams::status(went)
}
