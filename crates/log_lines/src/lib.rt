// What a line of a booking log is (document 02, Card 6), and a line of a plan drawn by hand (Card 12), by the grammar of lines.
#![tactic(auto)]

ghost use Rattle.std.specs.Prelude.{◌≡◌};
ghost use Rattle.text_fields.specs.Fields.{fields};
ghost use Rattle.text_grammar.specs.Grammar.{split};
ghost use Rattle.log_lines.specs.LogLines.{amount_form, line_as, log_line, plan_line};

use model::AMOUNT;
use text_grammar::{Broken, Fields, Form};

// What a line of a log asks: an amount, in halves, to open or to give up between two names, which are ranges of places in the line.
#[derive(Clone, Copy, PartialEq, Eq, Debug)]
pub struct Booking {
    pub opens: bool,
    pub start: usize,
    pub end: usize,
    pub start2: usize,
    pub end2: usize,
    pub amount: u64,
}

// The form of a line with a letter.
fn form(letter: u8) -> Form
    ensures { result ≡ amount_form letter }
{
    Form {
        letter,
        names: 2,
        least: 1,
        most: 1,
    }
}

// What a line asks, held against the form with a letter, or the number of the refusal.
fn line_as(line: &[u8], found: Fields, letter: u8, opens: bool) -> Result<Booking, u64>
    requires { found ≡ split line.now }
    ensures { result ≡ line_as letter opens (fields line.now) }
{
    text_grammar::check_line(line, found, form(letter)).map_err(Broken::number)?;
    let size = text_grammar::size_of(text_grammar::field(line, found, 3), AMOUNT);
    let amount = size.ok_or(3_u64)?;
    let none = amount < 1;
    if none {
        return Err(3);
    }
    let end = found.end[1];
    Ok(Booking {
        opens,
        start: 2,
        end,
        start2: end + 1,
        end2: found.end[2],
        amount,
    })
}

// What a line of a log asks, or the number of the refusal.
pub fn classify(line: &[u8]) -> Result<Booking, u64>
    ensures { result ≡ log_line line.now }
{
    let found = text_grammar::split(line);
    let opens = text_fields::is_byte(text_grammar::field(line, found, 0), b'+');
    if opens {
        return line_as(line, found, b'+', opens);
    }
    line_as(line, found, b'-', opens)
}

// What a line of a plan asks, or the number of the refusal: its letter is `P`, and its amount is told as one to open.
#[tactic(auto, unfolding(crate::specs::LogLines::plan_line))]
pub fn plan_line(line: &[u8]) -> Result<Booking, u64>
    ensures { result ≡ plan_line line.now }
{
    line_as(line, text_grammar::split(line), b'P', true)
}
