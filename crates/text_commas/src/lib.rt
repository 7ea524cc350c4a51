// Inner: only the planner's own crates call it. A number with commas, written from a place of the buffer on, as text_writers does.
#![tactic(auto)]

ghost use Rattle.std.specs.Prelude.{[], ◌∷◌, ◌++◌};
ghost use Rattle.text_writers.specs.Wrote.{Wrote, Room};
ghost use Rattle.text_commas.specs.Commas.{three, grouped};

use text_writers::{put_bytes, put_number};

// The last three digits of a number, and a byte that ends them.
fn put_three(buf: &mut [u8], at: usize, n: u64, stop: u8) -> usize
    requires { Room at (three n ++ (stop ∷ [])) }
    ensures { Wrote buf.old at (three n ++ (stop ∷ [])) buf.new result }
{
    let digits = [
        (48 + n / 100 % 10) as u8,
        (48 + n / 10 % 10) as u8,
        (48 + n % 10) as u8,
    ];
    put_bytes(buf, at, &digits, stop)
}

// A number with commas, and a byte that ends it.
pub fn put_grouped(buf: &mut [u8], at: usize, n: u64, stop: u8) -> usize
    requires { Room at (grouped n ++ (stop ∷ [])) }
    ensures { Wrote buf.old at (grouped n ++ (stop ∷ [])) buf.new result }
{
    if n < 1000 {
        return put_number(buf, at, n, stop);
    }
    if n < 1000 * 1000 {
        let next = put_number(buf, at, n / 1000, b',');
        return put_three(buf, next, n, stop);
    }
    let next = put_number(buf, at, n / (1000 * 1000), b',');
    let last = put_three(buf, next, n / 1000, b',');
    put_three(buf, last, n, stop)
}
