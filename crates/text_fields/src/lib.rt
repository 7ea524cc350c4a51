// The fields of a line, and which of them are names and numbers (document 01, "The network sheet").
#![tactic(auto)]

ghost use Rattle.std.specs.Prelude.{◌≡◌, [], ◌∷◌, ◌&&◌, ◌+◌, ◌≤◌, ◌<◌, leb, length};
ghost use Rattle.text_fields.specs.Fields.{same, capital, same_name, caseless, word, last_word};
ghost use Rattle.text_fields.specs.Fields.{all, is_digit, digits_alone, is_letter_or_digit, is_name, is_number};

// The last eight bytes of a string as one number, each without the bit by which a-z differ from A-Z, and 0 for a string of fewer: the same for names that
// are the same.
pub fn last_word(s: &[u8]) -> u64
    ensures { result ≡ last_word (caseless s.now) }
{
    match s.last_chunk::<8>() {
        Some(last) => u64::from_le_bytes(*last) & 0xDFDF_DFDF_DFDF_DFDF,
        None => 0,
    }
}

// Whether two strings of one length, of 8 to 16 bytes, are the same: their first and their last eight bytes are, which tell all of them.
fn same_ends(a: &[u8], b: &[u8]) -> bool
    requires { (length a.now ≡ length b.now) × (8 ≤ length a.now) × (length a.now ≤ 16) }
    ensures { result ≡ same a.now b.now }
{
    a.first_chunk::<8>() == b.first_chunk::<8>() && a.last_chunk::<8>() == b.last_chunk::<8>()
}

// Whether two byte strings are the same.
pub fn same(a: &[u8], b: &[u8]) -> bool
    ensures { result ≡ same a.now b.now }
{
    // Stays: `==` alone was tried; at 8 to 16 bytes it calls a function, and takes three times as long.
    if a.len() == b.len() && 8 <= a.len() && a.len() <= 16 {
        return same_ends(a, b);
    }
    a == b
}

// A byte, a-z read as A-Z.
fn capital(b: u8) -> u8
    ensures { result ≡ capital b }
{
    b.to_ascii_uppercase()
}

// Whether two strings of one length are the same when a-z is read as A-Z, byte by byte.
#[tactic(auto, using(crate::specs::Capitals::alike_everywhere, crate::specs::Capitals::apart_somewhere))]
fn same_capitals(a: &[u8], b: &[u8]) -> bool
    requires { length a.now ≡ length b.now }
    ensures { result ≡ same_name a.now b.now }
{
    for (x, y) in a.iter().zip(b) {
        if capital(*x) != capital(*y) {
            return false;
        }
    }
    true
}

// Whether two names are the same (document 02, Card 4): spelt alike, or else when a-z is read as A-Z.
pub fn same_name(a: &[u8], b: &[u8]) -> bool
    ensures { result ≡ same_name a.now b.now }
{
    a.len() == b.len() && (same(a, b) || same_capitals(a, b))
}

// Whether a field is one byte, the given one.
pub fn is_byte(field: &[u8], b: u8) -> bool
    ensures { result ≡ same field.now (b ∷ []) }
{
    match field {
        [one] => *one == b,
        _ => false,
    }
}

// Whether a byte is one of 0-9.
pub fn is_digit(b: u8) -> bool
    ensures { result ≡ is_digit b }
{
    b.is_ascii_digit()
}

// Whether a byte is one of A-Z, a-z, 0-9.
pub fn is_letter_or_digit(b: u8) -> bool
    ensures { result ≡ is_letter_or_digit b }
{
    b.is_ascii_alphanumeric()
}

// Whether every byte of a string is one of A-Z, a-z, 0-9, without a branch for each byte.
fn letters_or_digits(s: &[u8]) -> bool
    ensures { result ≡ all is_letter_or_digit s.now }
{
    let mut good = true;
    for b in s {
        good &= is_letter_or_digit(*b);
    }
    good
}

// Whether a string is of digits alone (document 02, Card 9).
pub fn digits_alone(s: &[u8]) -> bool
    ensures { result ≡ digits_alone s.now }
{
    s.iter().all(|b| is_digit(*b))
}

// Whether a field is a name.
#[tactic(auto, unfolding(crate::specs::Fields::is_name))]
pub fn is_name(field: &[u8]) -> bool
    ensures { result ≡ is_name field.now }
{
    1 <= field.len() && field.len() <= 12 && letters_or_digits(field)
}

// Whether a field is a number without a leading zero.
pub fn is_number(field: &[u8]) -> bool
    ensures { result ≡ is_number field.now }
{
    match field {
        [] => false,
        [one] => is_digit(*one),
        [first, ..] => digits_alone(field) && b'0' < *first,
    }
}
