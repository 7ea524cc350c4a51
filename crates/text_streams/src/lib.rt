// Inner: only the planner's own programs call it. Standard input, files and standard output of a program; what fails is told on standard error in a line that
// begins with `standard` or `file`.
#![tactic(auto)]

ghost use Rattle.std.specs.Prelude.{◌≡◌, ◌<◌, length, take, IsTrue, IfSome, false, if◌then◌else◌};
ghost use Rattle.std.specs.Io.KnownBytes.{Appends, Consumes, IsAtEnd};
ghost use Rattle.std.specs.Process.{exit_status};
ghost use Rattle.text_streams.specs.Counts.{IsPrefixLen, HoldsFront};

use std::env::{Env, FillError};
use std::fmt::InlineText;
use std::fs;
use std::io::{Error, ErrorKind, Read, Write};
use std::process::ExitCode;
use std::rt::Files;

// What standard input or a file came to: so many bytes, and whether each read went well.
// Stays: the clauses `count` and `bytes` of `read` tell of the bytes of a read that failed too, so the count stands beside the flag and in no Result.
#[derive(Clone, Copy)]
pub struct Input {
    pub count: usize,
    pub whole: bool,
}

// The numbers that the system has for an argument that is missing, for one that is too long, and for one whose bytes are no text.
const EINVAL: i32 = 22;

const ENAMETOOLONG: i32 = 36;

const EILSEQ: i32 = 84;

// Says on standard error what failed, behind a word for its kind, and why, in the system's words alone: its number for them, which an error prints behind them,
// is left out.
fn fail<E: Write>(err: &mut E, kind: &str, what: &str, why: Error) {
    let text = InlineText::<256>::of(why);
    let words = text.as_str();
    let (words, _) = words.split_once(" (os error ").unwrap_or((words, ""));
    let _ = writeln!(err, "{kind}{what}: {words}");
}

// Reads once, no bytes at the end; where the read fails, says so of what is read.
fn read_once<R: Read, E: Write>(
    from: &mut R,
    err: &mut E,
    kind: &str,
    what: &str,
    buf: &mut [u8],
) -> Input
    ensures count { IsPrefixLen result.count buf.new }
    ensures bytes { Consumes (R.remaining from.old) (R.remaining from.new) (take result.count buf.new) }
    ensures failed { result.whole ≡ false → result.count ≡ 0 }
    ensures end { IsTrue result.whole → result.count ≡ 0 → 0 < length buf.new → IsAtEnd (R.remaining from.new) }
{
    match from.read(buf) {
        Ok(count) => Input { count, whole: true },
        Err(why) => {
            fail(err, kind, what, why);
            Input {
                count: 0,
                whole: false,
            }
        }
    }
}

// Reads until the buffer is full or the input ends; where a read fails, says so of what is read.
fn read_from<R: Read, E: Write>(
    from: &mut R,
    err: &mut E,
    kind: &str,
    what: &str,
    buf: &mut [u8],
) -> Input
    ensures count { IsPrefixLen result.count buf.new }
    ensures bytes { Consumes (R.remaining from.old) (R.remaining from.new) (take result.count buf.new) }
    ensures end { IsTrue result.whole → result.count < length buf.new → IsAtEnd (R.remaining from.new) }
{
    let mut count = 0;
    // Stays: the place goes on by what each read gives, so there is no range or iterator to go over.
    while count < buf.len() {
        let some = read_once(from, err, kind, what, &mut buf[count..]);
        if !some.whole {
            return Input {
                count,
                whole: false,
            };
        }
        let more = some.count;
        if more == 0 {
            return Input { count, whole: true };
        }
        count += more;
    }
    Input { count, whole: true }
}

// Reads standard input until the buffer is full or the input ends; where a read fails, says so.
pub fn read<R: Read, E: Write>(input: &mut R, err: &mut E, buf: &mut [u8]) -> Input
    ensures count { IsPrefixLen result.count buf.new }
    ensures bytes { Consumes (R.remaining input.old) (R.remaining input.new) (take result.count buf.new) }
    ensures end { IsTrue result.whole → result.count < length buf.new → IsAtEnd (R.remaining input.new) }
    ensures front { IsTrue result.whole → IfSome (R.remaining input.old) (HoldsFront result.count buf.new) }
{
    read_from(input, err, "standard ", "input", buf)
}

// Nothing is read.
fn none_of(buf: &[u8]) -> Input
    ensures { IsPrefixLen result.count buf.now }
{
    Input {
        count: 0,
        whole: false,
    }
}

// Reads the file of a name until the buffer is full or the file ends; where that fails, says so.
fn read_path<R: Files, E: Write>(files: &R, err: &mut E, path: &str, buf: &mut [u8]) -> Input
    ensures { IsPrefixLen result.count buf.new }
{
    match fs::open(files, path) {
        Ok(mut file) => read_from(&mut file, err, "file ", path, buf),
        Err(why) => {
            fail(err, "file ", path, why);
            none_of(buf)
        }
    }
}

// Reads the file that an argument names until the buffer is full or the file ends; where that fails, says so.
pub fn read_file<R: Env + Files, E: Write>(
    rt: &R,
    err: &mut E,
    argument: usize,
    buf: &mut [u8],
) -> Input
    ensures { IsPrefixLen result.count buf.new }
{
    let mut name = [0u8; 4096];
    let named = read_argument(rt, err, argument, &mut name);
    if !named.whole {
        return none_of(buf);
    }
    match str::from_utf8(&name[..named.count]) {
        Ok(path) => read_path(rt, err, path, buf),
        Err(_) => {
            fail(err, "file ", "argument", Error::from_raw_os_error(EILSEQ));
            none_of(buf)
        }
    }
}

// Puts an argument at the start of the buffer; where it is missing or longer than the buffer, says so.
pub fn read_argument<R: Env, E: Write>(
    rt: &R,
    err: &mut E,
    argument: usize,
    buf: &mut [u8],
) -> Input
    ensures { IsPrefixLen result.count buf.new }
{
    let why = match rt.arg(argument, buf) {
        Ok(count) => return Input { count, whole: true },
        Err(FillError::NotPresent) => EINVAL,
        Err(FillError::TooLong) => ENAMETOOLONG,
    };
    fail(err, "file ", "argument", Error::from_raw_os_error(why));
    none_of(buf)
}

// Writes a text to standard output and tells whether all of it went; where not, says so, unless it is a pipe that nobody reads any more.
pub fn write<W: Write, E: Write>(out: &mut W, err: &mut E, text: &[u8]) -> bool
    ensures { IsTrue result → Appends (W.contents out.old) (W.contents out.new) text.now }
{
    match out.write_all(text) {
        Ok(()) => true,
        Err(why) => {
            if why.kind() != ErrorKind::BrokenPipe {
                fail(err, "standard ", "output", why);
            }
            false
        }
    }
}

// Whether the program was started with so many arguments.
pub fn is_given<R: Env>(rt: &R, argument: usize) -> bool {
    !matches!(rt.arg(argument, &mut []), Err(FillError::NotPresent))
}

// What a program ends with: 0 where all of its input was read and all of its output written, else 1.
pub fn status(whole: bool) -> ExitCode
    ensures { exit_status result ≡ (if whole then 0 else 1) }
{
    if whole {
        ExitCode::SUCCESS
    } else {
        ExitCode::FAILURE
    }
}
