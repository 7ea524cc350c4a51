// Inner: only the planner's own crates call it. Writing the exercise book (document 02, Card 13): the line of an entry, and the lines of a page.
#![tactic(auto)]

ghost use Rattle.std.specs.Prelude.{◌≡◌, [], ◌∷◌, ◌++◌, map, ◌-◌, ◌≤◌, ◌^◌, length};
ghost use Rattle.tree.specs.Offer.{links};
ghost use Rattle.text_writers.specs.Fields.{decimal};
ghost use Rattle.theory_book.specs.Numbered.{word, page_of};
ghost use Rattle.book_totals.specs.Total.{Few};
ghost use Rattle.book_lines.specs.Line.{link_text, commas, line_with, text};
ghost use Rattle.book_lines.specs.Written.{Put, Joins, line_if, lines_up_to};

// A link as lower and higher number, and a byte that ends it.
fn put_link(buf: &mut [u8], at: usize, lower: usize, higher: usize, stop: u8) -> usize
    requires { at ≤ 60000 }
    ensures { Put 42 buf.old at (link_text (lower, higher) ++ (stop ∷ [])) buf.new result }
{
    let next = text_writers::put_number(buf, at, lower as u64, 45);
    text_writers::put_number(buf, next, higher as u64, stop)
}

// Links parted by commas, and a tab.
fn put_links(buf: &mut [u8], at: usize, one: &[usize], two: &[usize]) -> usize
    requires { (at ≤ 50000) × (1 ≤ length one.now) × (length one.now ≤ 4) × (length two.now ≡ length one.now) }
    ensures { Put 168 buf.old at (commas (map link_text (links one.now two.now)) ++ (9 ∷ [])) buf.new result }
{
    let last = one.len() - 1;
    let mut next = at;
    for j in 0..last {
        next = put_link(buf, next, one[j], two[j], 44);
    }
    put_link(buf, next, one[last], two[last], 9)
}

// A size, and a byte that ends it.
fn put_size(buf: &mut [u8], at: usize, size: u64, stop: u8) -> usize
    requires { at ≤ 60000 }
    ensures { Put 21 buf.old at (decimal size ++ (stop ∷ [])) buf.new result }
{
    text_writers::put_number(buf, at, size, stop)
}

// Sizes parted by commas, and a tab.
fn put_sizes(buf: &mut [u8], at: usize, sizes: &[u64]) -> usize
    requires { (at ≤ 50000) × (1 ≤ length sizes.now) × (length sizes.now ≤ 4) }
    ensures { Put 84 buf.old at (commas (map decimal sizes.now) ++ (9 ∷ [])) buf.new result }
{
    let last = sizes.len() - 1;
    let mut next = at;
    for j in 0..last {
        next = put_size(buf, next, sizes[j], 44);
    }
    put_size(buf, next, sizes[last], 9)
}

// The line of links with their sizes and their total in halves.
fn put_line(
    buf: &mut [u8],
    at: usize,
    one: &[usize],
    two: &[usize],
    sizes: &[u64],
    halves: u64,
) -> usize
    requires { (at ≤ 40000) × (1 ≤ length one.now) × (length one.now ≤ 4) × (length two.now ≡ length one.now)
        × (length sizes.now ≡ length one.now) }
    ensures { Put 273 buf.old at (line_with (links one.now two.now) sizes.now halves) buf.new result }
{
    let sized = put_links(buf, at, one, two);
    let totalled = put_sizes(buf, sized, sizes);
    text_writers::put_number(buf, totalled, halves, 10)
}

// The line of links between n sites with their sizes; nothing where they are no tree.
fn put_sized(
    buf: &mut [u8],
    at: usize,
    n: usize,
    one: &[usize],
    two: &[usize],
    sizes: &[u64],
) -> usize
    requires { (at ≤ 40000) × Few n one.now two.now sizes.now }
    ensures { Put 273 buf.old at (line_if n (links one.now two.now) sizes.now) buf.new result }
{
    match book_totals::total(n, one, two, sizes) {
        Some(halves) => put_line(buf, at, one, two, sizes, halves),
        None => at,
    }
}

// The line of links with the list of sizes at place s; nothing where they are no tree.
fn put_entry(buf: &mut [u8], at: usize, n: usize, one: &[usize], two: &[usize], s: u64) -> usize
    requires { (at ≤ 40000) × Joins n one.now two.now }
    ensures { Put 273 buf.old at (line_if n (links one.now two.now) (word 3 (n - 1) s)) buf.new result }
{
    let m = one.len();
    let sizes = book_numbers::sizes(m, s);
    put_sized(buf, at, n, one, two, &sizes[..m])
}

// A line for each list of sizes.
fn put_entries(buf: &mut [u8], n: usize, one: &[usize], two: &[usize]) -> usize
    requires { Joins n one.now two.now }
    ensures { Put 32768 buf.old 0 (lines_up_to (3 ^ (n - 1)) n (links one.now two.now)) buf.new result }
{
    let count = book_numbers::power(3, one.len());
    let mut next: usize = 0;
    for s in 0..count {
        next = put_entry(buf, next, n, one, two, s);
    }
    next
}

// The page of choice m of the links between n sites, from the front of a buffer on, as far as it goes; its length.
pub fn put_page(buf: &mut [u8], n: usize, m: u64) -> usize
    requires { (2 ≤ n) × (n ≤ 5) }
    ensures { Put 32768 buf.old 0 (text (page_of 2 n m)) buf.new result }
{
    let choice = book_numbers::choose(n, m);
    let count = choice.count;
    let one = choice.one;
    let two = choice.two;
    if count != n - 1 {
        return 0;
    }
    put_entries(buf, n, &one[..count], &two[..count])
}
