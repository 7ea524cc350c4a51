// Inner: only the planner's own programs call it. The refusals in words. Each function writes from a place of the buffer on, as those of text_writers do.
#![tactic(auto)]

ghost use Rattle.text_writers.specs.Wrote.{Wrote};
ghost use Rattle.std.specs.Prelude.{◌≤◌};
ghost use Rattle.report_words.specs.Words.{words};
ghost use Rattle.report_words.specs.TwoSheets.{sheet_place, words_of_sheets};
ghost use Rattle.report_words.specs.TwoTexts.{sheet_word, log_long, log_words, words_of, refusal_of};

use model::{LOGBYTES, LOGLINES};
use report_causes::{put_cause, put_place};
use text_commas::put_grouped;
use text_writers::{put_bytes, put_number, put_numbers, put_part};

// Stays: here and below the text and the number of a refusal are numbers, since C hands in any number.
// What a refusal means, a line of text from the start of the buffer, and its length.
pub fn write_words(number: u64, line: usize, buf: &mut [u8]) -> usize
    ensures { Wrote buf.old 0 (words number line) buf.new result }
{
    let at = put_place(buf, 0, line);
    put_cause(buf, at, number)
}

// The word for the sheet before the number of a line, where a second text is read with it.
fn put_sheet(buf: &mut [u8], line: usize) -> usize
    ensures { Wrote buf.old 0 (sheet_word line) buf.new result }
{
    if line == 0 {
        return 0;
    }
    put_part(buf, 0, b"the sheet, ")
}

// That a log has more bytes or lines than it may have.
fn put_long_log(buf: &mut [u8]) -> usize
    ensures { Wrote buf.old 0 log_long buf.new result }
{
    let at = put_part(buf, 0, b"the log: more than ");
    let bytes = put_grouped(buf, at, LOGBYTES as u64, b' ');
    let or = put_part(buf, bytes, b"bytes, or than ");
    let lines = put_grouped(buf, or, LOGLINES as u64, b' ');
    put_bytes(buf, lines, b"lines", b'\n')
}

// Why a log is refused as a whole.
fn put_log(buf: &mut [u8], number: u64) -> usize
    ensures { Wrote buf.old 0 (log_words number) buf.new result }
{
    match number {
        1 => put_long_log(buf),
        _ => put_bytes(
            buf,
            0,
            b"the log: more lines than places for answers",
            b'\n',
        ),
    }
}

// What a refusal means where a log is read with the sheet (text 1 the sheet, 2 the log), a line of text from the start of the buffer, and its length.
pub fn write_words_of(text: u64, number: u64, line: usize, buf: &mut [u8]) -> usize
    ensures { Wrote buf.old 0 (words_of text number line) buf.new result }
{
    if text == 2 {
        return put_log(buf, number);
    }
    let at = put_sheet(buf, line);
    let next = put_place(buf, at, line);
    put_cause(buf, next, number)
}

// Which of two sheets, and where in it.
fn put_sheet_place(buf: &mut [u8], sheet: u64, line: usize) -> usize
    ensures { Wrote buf.old 0 (sheet_place sheet line) buf.new result }
{
    let word = put_part(buf, 0, b"sheet ");
    if line == 0 {
        let next = put_number(buf, word, sheet, b':');
        return put_part(buf, next, b" ");
    }
    let next = put_number(buf, word, sheet, b',');
    let at = put_part(buf, next, b" ");
    put_place(buf, at, line)
}

// What a refusal means where two sheets are read (0 means both), a line of text from the start of the buffer, and its length.
pub fn write_words_of_sheets(sheet: u64, number: u64, line: usize, buf: &mut [u8]) -> usize
    ensures { Wrote buf.old 0 (words_of_sheets sheet number line) buf.new result }
{
    if sheet == 0 {
        return put_cause(buf, 0, number);
    }
    let at = put_sheet_place(buf, sheet, line);
    put_cause(buf, at, number)
}

// The line of a refusal of one of two texts, from the start of the buffer, and its length.
pub fn write_refusal_of(text: u64, number: u64, line: usize, buf: &mut [u8]) -> usize
    ensures { Wrote buf.old 0 (refusal_of text number line) buf.new result × (result ≤ 80) }
{
    let word = put_bytes(buf, 0, b"refused", 9);
    let next = put_number(buf, word, text, 9);
    put_numbers(buf, next, number, line as u64)
}
