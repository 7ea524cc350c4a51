// Inner: only the planner's own crates call it. Writing bytes: each function writes from a place of the buffer on, as far as the buffer goes, and
// returns the place after what it wrote, so that a report is measured and written by the same code. Each requires room for its own text.
#![tactic(auto)]

ghost use Rattle.std.specs.Prelude.{◌≡◌, [], ◌∷◌, ◌++◌, ◌+◌, ◌≤◌, ◌<◌, length};
ghost use Rattle.std.proofs.lemmas.List.Edits.{sets};
ghost use Rattle.model.specs.Limits.{REPORT};
ghost use Rattle.text_writers.specs.Fields.{decimal, padded, line};
ghost use Rattle.text_writers.specs.Wrote.{Wrote, Room, Halves};

// One byte.
fn put_byte(buf: &mut [u8], at: usize, b: u8) -> usize
    requires { Room at (b ∷ []) }
    ensures { Wrote buf.old at (b ∷ []) buf.new result }
{
    if at < buf.len() {
        buf[at] = b;
        return at + 1;
    }
    at + 1
}

// The bytes of a part.
pub fn put_part(buf: &mut [u8], at: usize, part: &[u8]) -> usize
    requires { Room at part.now }
    ensures { Wrote buf.old at part.now buf.new result }
{
    let many = part.len().min(buf.len().saturating_sub(at));
    for i in 0..many {
        buf[at + i] = part[i];
    }
    at + part.len()
}

// A part of N to 2 N bytes, its first N and its last N, and a byte that ends it: so many bytes move at once.
fn put_halves<const N: usize>(buf: &mut [u8], at: usize, part: &[u8], stop: u8) -> usize
    requires { Room at (part.now ++ (stop ∷ [])) × Halves buf.old at part.now N }
    ensures { Wrote buf.old at (part.now ++ (stop ∷ [])) buf.new result }
{
    // Both are read before one is written: a copy from the part itself asks first whether the two overlap, and took a third longer.
    let low = *part.first_chunk::<N>().unwrap();
    let high = *part.last_chunk::<N>().unwrap();
    let next = at + part.len();
    buf[at..at + N].copy_from_slice(&low);
    buf[next - N..next].copy_from_slice(&high);
    buf[next] = stop;
    next + 1
}

// The bytes of a part, and a byte that ends it.
pub fn put_bytes(buf: &mut [u8], at: usize, part: &[u8], stop: u8) -> usize
    requires { Room at (part.now ++ (stop ∷ [])) }
    ensures { Wrote buf.old at (part.now ++ (stop ∷ [])) buf.new result }
{
    if at + part.len() < buf.len() {
        match part.len() {
            4..=7 => return put_halves::<4>(buf, at, part, stop),
            8..=16 => return put_halves::<8>(buf, at, part, stop),
            _ => {}
        }
    }
    let next = put_part(buf, at, part);
    put_byte(buf, next, stop)
}

// A letter, and a byte that ends it.
pub fn put_letter(buf: &mut [u8], at: usize, letter: u8, stop: u8) -> usize
    requires { Room at (letter ∷ stop ∷ []) }
    ensures { Wrote buf.old at (letter ∷ stop ∷ []) buf.new result }
{
    let next = put_byte(buf, at, letter);
    put_byte(buf, next, stop)
}

// The two digits of a number below 100.
fn put_two_digits(buf: &mut [u8], at: usize, n: u32)
    requires { (n < 100) × (at + 2 ≤ length buf.old) }
    ensures { buf.new ≡ sets buf.old at (padded 2 n) }
{
    buf[at] = (48 + n / 10) as u8;
    buf[at + 1] = (48 + n % 10) as u8;
}

// The four digits of a number below 10,000: each is a byte of one word, and so they move at once.
fn put_four_digits(buf: &mut [u8], at: usize, n: u32)
    requires { (n < 10000) × (at + 4 ≤ length buf.old) }
    ensures { buf.new ≡ sets buf.old at (padded 4 n) }
{
    let high = n / 100;
    let low = n % 100;
    let tens = high / 10 + low / 10 * 65536;
    let word = (high + low * 65536) * 256 + 808464432 - tens * 2559;
    buf[at] = (word % 256) as u8;
    buf[at + 1] = (word / 256 % 256) as u8;
    buf[at + 2] = (word / 65536 % 256) as u8;
    buf[at + 3] = (word / 16777216) as u8;
}

// Stays: the library's itoa, tried in the place of these functions, writes into a buffer of its own, from which the digits are then copied; a number took
// 10 ns by it, and 6 to 8 by these.
// A number below 10,000, where there are four places.
fn put_short(buf: &mut [u8], at: usize, n: u32) -> usize
    requires { (n < 10000) × (at + 4 ≤ length buf.old) }
    ensures { Wrote buf.old at (decimal n) buf.new result }
{
    if n < 10 {
        buf[at] = (48 + n) as u8;
        return at + 1;
    }
    if n < 100 {
        put_two_digits(buf, at, n);
        return at + 2;
    }
    if n < 1000 {
        buf[at] = (48 + n / 100) as u8;
        let next = at + 1;
        put_two_digits(buf, next, n % 100);
        return next + 2;
    }
    put_four_digits(buf, at, n);
    at + 4
}

// A number below 100,000,000, where there are eight places.
fn put_small(buf: &mut [u8], at: usize, n: u32) -> usize
    requires { (n < 100000000) × (at + 8 ≤ length buf.old) }
    ensures { Wrote buf.old at (decimal n) buf.new result }
{
    if n < 10000 {
        return put_short(buf, at, n);
    }
    let next = put_short(buf, at, n / 10000);
    put_four_digits(buf, next, n % 10000);
    next + 4
}

// A number in decimal, and a byte that ends it, whatever the number and the buffer: the last digit ends those before it.
fn put_digits(buf: &mut [u8], at: usize, n: u64, stop: u8) -> usize
    requires { Room at (decimal n ++ (stop ∷ [])) }
    ensures { Wrote buf.old at (decimal n ++ (stop ∷ [])) buf.new result }
{
    if n < 10 {
        return put_letter(buf, at, (48 + n) as u8, stop);
    }
    let next = put_digits(buf, at, n / 10, (48 + n % 10) as u8);
    put_byte(buf, next, stop)
}

// How many digits a number has.
fn digits(n: u64) -> usize
    ensures { result ≡ length (decimal n) }
{
    // Stays: the rest falls by its last digit, not by one, so there is no range or iterator to go over.
    let mut rest = n;
    let mut many = 1;
    while rest >= 10 {
        rest /= 10;
        many += 1;
    }
    many
}

// A number in decimal, and a byte that ends it; where nothing of it has a place, it is only measured.
pub fn put_number(buf: &mut [u8], at: usize, n: u64, stop: u8) -> usize
    requires { Room at (decimal n ++ (stop ∷ [])) }
    ensures { Wrote buf.old at (decimal n ++ (stop ∷ [])) buf.new result }
{
    if n < 100000000 && at + 9 <= buf.len() {
        let next = put_small(buf, at, n as u32);
        buf[next] = stop;
        return next + 1;
    }
    if buf.len() <= at {
        return at + digits(n) + 1;
    }
    put_digits(buf, at, n, stop)
}

// Two numbers in decimal, the last fields of a line.
pub fn put_numbers(buf: &mut [u8], at: usize, first: u64, second: u64) -> usize
    requires { Room at (line (decimal first ∷ decimal second ∷ [])) }
    ensures { Wrote buf.old at (line (decimal first ∷ decimal second ∷ [])) buf.new result }
{
    let next = put_number(buf, at, first, 9);
    put_number(buf, next, second, 10)
}
