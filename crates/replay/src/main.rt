// A booking log replayed over a sheet (document 02, Card 6), the two being files that the arguments name: a line for each line of the log, its answer; or
// the line of the refusal. What a refusal means, and what could not be read or written, it says on standard error.
#![tactic(auto)]

ghost use Rattle.std.specs.Prelude.{◌≡◌, ◌+◌, ◌≤◌, length};
ghost use Rattle.model.specs.Edition.{editions};
ghost use Rattle.logs.specs.Outcome.{replayed};

use model::{BYTES, LOGBYTES, LOGLINES, TextRefusal};
use std::env::Env;
use std::io::Write;
use std::process::ExitCode;
use std::rt::Files;

// How many answers are written at a time.
const SOME: usize = 2048;

// Writes the answers from one place to another, a line each, to standard output, by a text in a frame of its own; whether all went.
#[inline(never)]
fn write_some<W: Write, E: Write>(
    out: &mut W,
    err: &mut E,
    answers: &[u64],
    from: usize,
    to: usize,
) -> bool
    requires { (from ≤ to) × (to ≤ from + 2048) × (to ≤ length answers.now) }
{
    let mut text = [0u8; 65536];
    let mut length = 0;
    for i in from..to {
        length = text_writers::put_number(&mut text, length, answers[i], 10);
    }
    text_streams::write(out, err, &text[..length])
}

// Writes the first `count` answers, a line each, to standard output; whether all went.
fn write_answers<W: Write, E: Write>(
    out: &mut W,
    err: &mut E,
    answers: &[u64],
    count: usize,
) -> bool {
    let end = count.min(answers.len());
    let mut from = 0;
    // Stays: so many answers are written at a time, the last time fewer, so the place goes on by more than one.
    while from < end {
        let to = end.min(from + SOME);
        if !write_some(out, err, answers, from, to) {
            return false;
        }
        from = to;
    }
    true
}

// Replays a log over a sheet, as logs::replay does, in a frame of its own.
#[inline(never)]
fn replay(sheet: &[u8], log: &[u8], answers: &mut [u64]) -> Result<usize, TextRefusal>
    ensures told { result ≡ (replayed editions sheet.now log.now answers.old).outcome }
    ensures left { answers.new ≡ (replayed editions sheet.now log.now answers.old).list }
{
    logs::replay(sheet, log, answers)
}

// Replays the log of the second argument over the sheet of the first; whether both were read and the answers written.
fn run<R: Env + Files, W: Write, E: Write>(rt: &R, out: &mut W, err: &mut E) -> bool {
    let mut sheet = [0u8; BYTES + 1];
    let first = text_streams::read_file(rt, err, 1, &mut sheet);
    if !first.whole {
        return false;
    }
    let mut log = [0u8; LOGBYTES + 1];
    let second = text_streams::read_file(rt, err, 2, &mut log);
    if !second.whole {
        return false;
    }
    let n = first.count;
    let m = second.count;
    let mut answers = [0u64; LOGLINES];
    match replay(&sheet[..n], &log[..m], &mut answers) {
        Ok(count) => write_answers(out, err, &answers, count),
        Err(refusal) => {
            text_refusals::refuse_text(out, err, refusal.text, refusal.number, refusal.line)
        }
    }
}

fn main(rt: HostRuntime) -> ExitCode {
    let went = run(&rt, &mut rt.stdout(), &mut rt.stderr());
    text_streams::status(went)
}
