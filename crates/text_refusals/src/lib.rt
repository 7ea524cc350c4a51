// Inner: only the planner's own programs call it. A refusal of a program: its line on standard output, and what it means on standard error. Each function tells
// whether the line went.
#![tactic(auto)]

ghost use Rattle.std.specs.Prelude.{◌≤◌, length, IsTrue};
ghost use Rattle.std.specs.Io.KnownBytes.{Appends};
ghost use Rattle.report.specs.Report.{refusal_line};
ghost use Rattle.report_words.specs.TwoTexts.{refusal_of};

use std::io::Write;

// Writes a line to standard output, and then words to standard error.
fn tell<W: Write, E: Write>(out: &mut W, err: &mut E, line: &[u8], words: &[u8]) -> bool
    ensures { IsTrue result → Appends (W.contents out.old) (W.contents out.new) line.now }
{
    let went = text_streams::write(out, err, line);
    if went {
        let _ = err.write_all(words);
    }
    went
}

// Writes the line of a refusal to standard output, and then what it means to standard error.
pub fn refuse<W: Write, E: Write>(out: &mut W, err: &mut E, number: u64, line: usize) -> bool
    ensures line { IsTrue result → Appends (W.contents out.old) (W.contents out.new) (refusal_line number line) }
    ensures short { length (refusal_line number line) ≤ 50 }
{
    let mut text = [0u8; 64];
    let mut words = [0u8; 256];
    let length = report::write_refusal(number, line, &mut text);
    let told = report_words::write_words(number, line, &mut words);
    tell(out, err, &text[..length], &words[..told])
}

// Writes the line of a refusal of one of two texts to standard output, and then what it means to standard error.
pub fn refuse_text<W: Write, E: Write>(
    out: &mut W,
    err: &mut E,
    text: u64,
    number: u64,
    line: usize,
) -> bool
    ensures { IsTrue result → Appends (W.contents out.old) (W.contents out.new) (refusal_of text number line) }
{
    let mut buf = [0u8; 128];
    let mut words = [0u8; 256];
    let length = report_words::write_refusal_of(text, number, line, &mut buf);
    let told = report_words::write_words_of(text, number, line, &mut words);
    tell(out, err, &buf[..length], &words[..told])
}

// Writes the line of a refusal of two sheets (0 means both) to standard output, and then what it means to standard error.
pub fn refuse_sheets<W: Write, E: Write>(
    out: &mut W,
    err: &mut E,
    sheet: u64,
    number: u64,
    line: usize,
) -> bool
    ensures { IsTrue result → Appends (W.contents out.old) (W.contents out.new) (refusal_of sheet number line) }
{
    let mut buf = [0u8; 128];
    let mut words = [0u8; 256];
    let length = report_words::write_refusal_of(sheet, number, line, &mut buf);
    let said = report_words::write_words_of_sheets(sheet, number, line, &mut words);
    tell(out, err, &buf[..length], &words[..said])
}

// Writes the line of a refusal at line 0 to standard output, and then these words of what it means to standard error.
pub fn refuse_in_words<W: Write, E: Write>(
    out: &mut W,
    err: &mut E,
    number: u64,
    words: &[u8],
) -> bool
    ensures { IsTrue result → Appends (W.contents out.old) (W.contents out.new) (refusal_line number 0) }
{
    let mut text = [0u8; 64];
    let length = report::write_refusal(number, 0, &mut text);
    tell(out, err, &text[..length], words)
}
