// A plan drawn by hand judged over a sheet (document 02, Card 12), the two being files that the arguments name: the line of the verdict, or the line of the
// refusal. What a refusal means, and what could not be read or written, it says on standard error.
#![tactic(auto)]

use model::{BYTES, PLANBYTES};
use std::env::Env;
use std::io::Write;
use std::process::ExitCode;
use std::rt::Files;

// Writes the line of a verdict to standard output; whether all of it went.
fn tell<W: Write, E: Write>(out: &mut W, err: &mut E, total: u64, yes: bool) -> bool {
    let mut text = [0u8; 4096];
    let length = plan_words::write_verdict(total, yes, &mut text);
    text_streams::write(out, err, &text[..length])
}

// Writes the line of a refusal to standard output, and then what it means to standard error; whether the line went.
fn refuse<W: Write, E: Write>(
    out: &mut W,
    err: &mut E,
    text: u64,
    number: u64,
    line: usize,
) -> bool {
    let mut buf = [0u8; 4096];
    let length = report_words::write_refusal_of(text, number, line, &mut buf);
    let went = text_streams::write(out, err, &buf[..length]);
    if went {
        let told = plan_words::write_words(text, number, line, &mut buf);
        let _ = err.write_all(&buf[..told]);
    }
    went
}

// Judges the plan of the second argument over the sheet of the first; whether both were read and the verdict written.
fn run<R: Env + Files, W: Write, E: Write>(rt: &R, out: &mut W, err: &mut E) -> bool {
    let mut sheet = [0u8; BYTES + 1];
    let first = text_streams::read_file(rt, err, 1, &mut sheet);
    if !first.whole {
        return false;
    }
    let mut plan = [0u8; PLANBYTES + 1];
    let second = text_streams::read_file(rt, err, 2, &mut plan);
    if !second.whole {
        return false;
    }
    let n = first.count;
    let m = second.count;
    match verdicts::judge(&sheet[..n], &plan[..m]) {
        Ok(verdict) => tell(out, err, verdict.total, verdict.largest),
        Err(refusal) => refuse(out, err, refusal.text, refusal.number, refusal.line),
    }
}

fn main(rt: HostRuntime) -> ExitCode {
    let went = run(&rt, &mut rt.stdout(), &mut rt.stderr());
    text_streams::status(went)
}
