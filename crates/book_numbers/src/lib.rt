// Inner: only the planner's own crates call it. The lists of the exercise book by number (document 02, Card 13): the choice of links, and the list of sizes,
// that come at a place.
#![tactic(auto)]

ghost use Rattle.std.specs.Prelude.{◌≡◌, [], ◌∷◌, ◌++◌, ◌+◌, ◌/◌, ◌%◌, ◌^◌, ◌≤◌, ◌<◌, length, take};
ghost use Rattle.lists.specs.Numbers.{pick};
ghost use Rattle.theory_book.specs.Book.{possible};
ghost use Rattle.theory_book.specs.Numbered.{word, chosen};
ghost use Rattle.book_numbers.specs.Held.{held, fan_of, Roomy, LISTED};

// Places of a choice: four links for each of five sites are more than enough.
pub const LISTED: usize = 20;

// The most sizes of a list.
pub const SIZES: usize = 4;

// A choice of links: the first `count` places hold their lower and their higher numbers.
#[derive(Clone, Copy)]
pub struct Choice {
    pub one: [usize; LISTED],
    pub two: [usize; LISTED],
    pub count: usize,
}

// A number to the power of k.
pub fn power(base: u64, k: usize) -> u64
    requires { (base ≤ 3) × (k ≤ 20) }
    ensures { result ≡ base ^ k }
{
    base.pow(k as u32)
}

// No link.
fn none() -> Choice
    ensures { (result.count ≡ 0) × Roomy result }
{
    Choice {
        one: [0usize; LISTED],
        two: [0usize; LISTED],
        count: 0,
    }
}

// One link more.
fn push(c: Choice, a: usize, b: usize) -> Choice
    requires { (c.count < LISTED) × Roomy c }
    ensures { (held result ≡ held c ++ ((a, b) ∷ [])) × (result.count ≡ c.count + 1) × Roomy result }
{
    let at = c.count;
    let mut one = c.one;
    let mut two = c.two;
    one[at] = a;
    two[at] = b;
    Choice {
        one,
        two,
        count: at + 1,
    }
}

// The links from site a to the next sites.
fn fan(c: Choice, a: usize, more: usize) -> Choice
    requires { (c.count + more ≤ LISTED) × (a + more < 1000) × Roomy c }
    ensures { (held result ≡ held c ++ fan_of a more) × (result.count ≡ c.count + more) × Roomy result }
{
    let mut all = c;
    for i in 0..more {
        all = push(all, a, a + 1 + i);
    }
    all
}

// The possible links of n sites, in order.
fn all_links(n: usize) -> Choice
    requires { n ≤ 5 }
    ensures { (held result ≡ possible n) × (result.count ≤ LISTED) × Roomy result }
{
    let mut all = none();
    for a in 1..n + 1 {
        all = fan(all, a, n - a);
    }
    all
}

// A link more where the binary digit of m that counts w is 0.
fn keep(c: Choice, m: u64, w: u64, a: usize, b: usize) -> Choice
    requires { (c.count < LISTED) × (0 < w) × Roomy c }
    ensures { (held result ≡ pick (m / w % 2) 0 (held c ++ ((a, b) ∷ [])) (held c)) × (result.count ≤ c.count + 1) × Roomy result }
{
    if m / w % 2 == 0 {
        return push(c, a, b);
    }
    c
}

// The choice of links between n sites at place m.
pub fn choose(n: usize, m: u64) -> Choice
    requires { n ≤ 5 }
    ensures { (held result ≡ chosen (possible n) m) × (result.count ≤ LISTED) × Roomy result }
{
    let all = all_links(n);
    let count = all.count;
    let one = all.one;
    let two = all.two;
    let mut c = none();
    for i in 0..count {
        let w = power(2, count - 1 - i);
        c = keep(c, m, w, one[i], two[i]);
    }
    c
}

// The list of k sizes from 0 to 2 at place s, at the front of a list.
pub fn sizes(k: usize, s: u64) -> [u64; SIZES]
    requires { k ≤ 4 }
    ensures { (take k result ≡ word 3 k s) × (length result ≡ 4) }
{
    let mut list = [0u64; SIZES];
    for i in 0..k {
        let w = power(3, k - 1 - i);
        list[i] = s / w % 3;
    }
    list
}
