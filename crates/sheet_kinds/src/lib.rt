// What a line of a network sheet is (document 01, "The network sheet"; 02, Card 5, the reserve of a link; Card 7, the mark of a site; Card 11, the low and
// the high size of a link), by the grammar of lines.
#![tactic(auto)]

ghost use Rattle.std.specs.Prelude.{◌≡◌};
ghost use Rattle.text_fields.specs.Fields.{same, fields, field};
ghost use Rattle.text_grammar.specs.Grammar.{split, size_of};
ghost use Rattle.sheet_kinds.specs.LineKinds.{heading_word, is_heading, site_form, least_numbers, link_form, IsLink, site_line, capacity_of};
ghost use Rattle.sheet_kinds.specs.LineKinds.{link_line, kind};

use model::{Edition, Sizing};
use text_grammar::{Broken, Fields, Form};

// What a line below the heading is that is no fault (01: a site or a link). Names are ranges of places in the line.
#[derive(Clone, Copy, PartialEq, Eq, Debug)]
pub enum Line {
    // 1 marked (02, Card 7: letter `T`), 0 not
    // Stays: a network's marks are a list of these numbers, in `Lists` and in the definition `mark`, which may not change.
    Site {
        start: usize,
        end: usize,
        mark: u8,
    },
    Link {
        start: usize,
        end: usize,
        start2: usize,
        end2: usize,
        size: u64,
    },
}

// The form of a site line, by its letter.
fn site_form(letter: u8) -> Form
    ensures { result ≡ site_form letter }
{
    Form {
        letter,
        names: 1,
        least: 0,
        most: 0,
    }
}

// The least numbers of a link line.
fn least_numbers(sizing: Sizing) -> usize
    ensures { result ≡ least_numbers sizing }
{
    match sizing {
        Sizing::Reserved => 1,
        Sizing::Low => 2,
        Sizing::High => 2,
    }
}

// The form of a link line.
fn link_form(sizing: Sizing) -> Form
    ensures { result ≡ link_form sizing }
{
    Form {
        letter: b'L',
        names: 2,
        least: least_numbers(sizing),
        most: 2,
    }
}

// Whether a field is the word of a heading.
fn is_heading_word(field: &[u8], sizing: Sizing) -> bool
    ensures { result ≡ same field.now (heading_word sizing) }
{
    match sizing {
        Sizing::Reserved => text_fields::same(field, b"network"),
        Sizing::Low => text_fields::same(field, b"ranges"),
        Sizing::High => text_fields::same(field, b"ranges"),
    }
}

// Whether a line is the heading of an edition.
pub fn is_heading(line: &[u8], edition: Edition) -> bool
    ensures { result ≡ is_heading edition (fields line.now) }
{
    let sizing = edition.sizing;
    let found = text_grammar::split(line);
    if found.count != 2 {
        return false;
    }
    if !is_heading_word(text_grammar::field(line, found, 0), sizing) {
        return false;
    }
    text_fields::is_byte(text_grammar::field(line, found, 1), edition.digit)
}

// What a line is as a site with a letter and a mark, or the number of the refusal.
fn site(line: &[u8], found: Fields, letter: u8, mark: u8) -> Result<Line, u64>
    requires { found ≡ split line.now }
    ensures { result ≡ site_line letter mark (fields line.now) }
{
    let form = site_form(letter);
    text_grammar::check_line(line, found, form).map_err(Broken::number)?;
    Ok(Line::Site {
        start: 2,
        end: found.end[1],
        mark,
    })
}

// The second number of a link line, where it is within the limit; a line without a fifth field has none, and 0 stands for it.
fn second(line: &[u8], found: Fields, most: u64) -> Option<u64>
    requires { found ≡ split line.now }
    ensures { result ≡ size_of most (field (fields line.now) 4) }
{
    let few = found.count < 5;
    if few {
        return Some(0);
    }
    text_grammar::size_of(text_grammar::field(line, found, 4), most)
}

// The capacity of a link line, or the number of the refusal.
fn usable(line: &[u8], found: Fields, edition: Edition) -> Result<u64, u64>
    requires { (found ≡ split line.now) × IsLink edition.sizing (fields line.now) }
    ensures { result ≡ capacity_of edition.sizing (size_of edition.size (field (fields line.now) 3))
        (size_of edition.size (field (fields line.now) 4)) }
{
    let sizing = edition.sizing;
    let first = text_grammar::size_of(text_grammar::field(line, found, 3), edition.size);
    sheet_sizes::capacity_of(sizing, first, second(line, found, edition.size))
}

// What a line is as a link, or the number of the refusal.
fn link(line: &[u8], found: Fields, edition: Edition) -> Result<Line, u64>
    requires { found ≡ split line.now }
    ensures { result ≡ link_line edition (fields line.now) }
{
    let sizing = edition.sizing;
    text_grammar::check_line(line, found, link_form(sizing)).map_err(Broken::number)?;
    let size = usable(line, found, edition)?;
    let end = found.end[1];
    Ok(Line::Link {
        start: 2,
        end,
        start2: end + 1,
        end2: found.end[2],
        size,
    })
}

// What a line below the heading is, or the number of the refusal.
pub fn classify(line: &[u8], edition: Edition) -> Result<Line, u64>
    ensures { result ≡ kind edition line.now }
{
    let found = text_grammar::split(line);
    let first = text_grammar::field(line, found, 0);
    if text_fields::is_byte(first, b'L') {
        return link(line, found, edition);
    }
    if text_fields::is_byte(first, b'T') {
        return site(line, found, b'T', 1);
    }
    site(line, found, b'N', 0)
}
