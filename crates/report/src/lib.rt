// Inner: only the planner's own crates call it. Writing the report of lists, whatever they were worked out from: each function writes bytes from a place
// of the buffer on, as far as the buffer goes, and returns the place after them, so that a report is measured and written by the same code.
#![tactic(auto)]

ghost use Rattle.std.specs.Prelude.{◌≡◌, [], ◌∷◌, ◌++◌, ◌*◌, ◌≤◌, ◌<◌, length};
ghost use Rattle.model.specs.Limits.{LINKS, SIZE};
ghost use Rattle.lists.specs.Numbers.{upfrom};
ghost use Rattle.model.specs.Flows.{Site, sites, total};
ghost use Rattle.text_writers.specs.Fields.{decimal, line, begun};
ghost use Rattle.text_writers.specs.Wrote.{Wrote, Room};
ghost use Rattle.report.specs.Report.{lines, head_record, pair_line, report_of, odd_line, refusal_line};
ghost use Rattle.report.specs.Span.{span_text};
ghost use Rattle.report.specs.Lent.{name_in, IsNamed, AreNamed, link_of, AreLinks, site_of, AreOwners, cut_of, AreCuts, range_of, AreRanges};
ghost use Rattle.report.specs.Lent.{plan_in, CanShow, span_in, CanShowSpan, JoinsNamed, AreJoined};

use model::{PLACES, Pair, Pairs};
use text_writers::{put_bytes, put_letter, put_number, put_numbers, put_part};

// Where the names of sites stand: that of site v in the sheet, from the place that `start` has at v - 1 to the one that `end` has there.
#[derive(Clone, Copy)]
pub struct Names<'a> {
    pub sheet: &'a [u8],
    pub start: &'a [usize],
    pub end: &'a [usize],
}

impl<'a> Names<'a> {
    // The name of site v, and a byte that ends it.
    fn put_name(self, v: usize, buf: &mut [u8], at: usize, stop: u8) -> usize
        requires { Room at (name_in self v ++ (stop ∷ [])) × IsNamed self v }
        ensures { Wrote buf.old at (name_in self.entry v ++ (stop ∷ [])) buf.new result }
    {
        let i = v - 1;
        put_bytes(buf, at, &self.sheet[self.start[i]..self.end[i]], stop)
    }

    // The first two fields of a line: a letter, and the name of site v.
    fn put_site(self, letter: u8, v: usize, buf: &mut [u8], at: usize) -> usize
        requires { Room at (begun ((letter ∷ []) ∷ name_in self v ∷ [])) × IsNamed self v }
        ensures { Wrote buf.old at (begun ((letter ∷ []) ∷ name_in self.entry v ∷ [])) buf.new result }
    {
        let next = put_letter(buf, at, letter, 9);
        self.put_name(v, buf, next, 9)
    }

    // The first three fields of a line: a letter, and the names of sites v and w.
    fn put_two_sites(self, letter: u8, v: usize, w: usize, buf: &mut [u8], at: usize) -> usize
        requires { Room at (begun ((letter ∷ []) ∷ name_in self v ∷ name_in self w ∷ []))
            × IsNamed self v × IsNamed self w }
        ensures { Wrote buf.old at (begun ((letter ∷ []) ∷ name_in self.entry v ∷ name_in self.entry w ∷ [])) buf.new result }
    {
        let next = self.put_site(letter, v, buf, at);
        self.put_name(w, buf, next, 9)
    }
}

// Links: the two sites of each, its capacity, and what is shown of it.
#[derive(Clone, Copy)]
pub struct LinkLists<'a> {
    pub one: &'a [usize],
    pub two: &'a [usize],
    pub capacity: &'a [u64],
    pub shown: &'a [u64],
}

impl<'a> LinkLists<'a> {
    // The line of link j.
    fn put_line(self, names: Names, j: usize, buf: &mut [u8], at: usize) -> usize
        requires { Room at (link_of names self j) × AreLinks names self × (j < length self.one.now) }
        ensures { Wrote buf.old at (link_of names.entry self.entry j) buf.new result }
    {
        let next = names.put_two_sites(b'L', self.one[j], self.two[j], buf, at);
        put_numbers(buf, next, self.capacity[j], self.shown[j])
    }

    // The lines of the links.
    fn put_lines(self, names: Names, buf: &mut [u8], at: usize) -> usize
        requires { Room at (lines (link_of names self) (upfrom 0 (length self.one.now))) × AreLinks names self }
        ensures { Wrote buf.old at
            (lines (link_of names.entry self.entry) (upfrom 0 (length self.entry.one.now))) buf.new result }
    {
        let mut next = at;
        for j in 0..self.one.len() {
            next = self.put_line(names, j, buf, next);
        }
        next
    }
}

// The sites 1 to `many`: which of them are ends, and the owner of each, and the size and the count of its terminal cut.
#[derive(Clone, Copy)]
pub struct SiteLists<'a> {
    pub many: usize,
    pub ends: &'a [u8; PLACES],
    pub owner: &'a [usize],
    pub size: &'a [u64],
    pub count: &'a [usize],
}

impl<'a> SiteLists<'a> {
    // The line of site x and its owner, or `-` where there is none.
    fn put_site_line(self, names: Names, x: usize, buf: &mut [u8], at: usize) -> usize
        requires { Room at (site_of names self x) × Site self.many x × IsNamed names x × AreOwners names self }
        ensures { Wrote buf.old at (site_of names.entry self.entry x) buf.new result }
    {
        let next = names.put_site(b'N', x, buf, at);
        let owner = self.owner[x - 1];
        if owner == 0 {
            return put_letter(buf, next, b'-', 10);
        }
        names.put_name(owner, buf, next, 10)
    }

    // The lines of the sites.
    fn put_site_lines(self, names: Names, buf: &mut [u8], at: usize) -> usize
        requires { Room at (lines (site_of names self) (sites self.many))
            × AreNamed names self.many × AreOwners names self }
        ensures { Wrote buf.old at (lines (site_of names.entry self.entry) (sites self.entry.many)) buf.new result }
    {
        let mut next = at;
        for i in 0..self.many {
            next = self.put_site_line(names, i + 1, buf, next);
        }
        next
    }

    // The line of the terminal cut of site a, if the site is an end.
    fn put_cut_line(self, names: Names, a: usize, buf: &mut [u8], at: usize) -> usize
        requires { Room at (cut_of names self a) × Site self.many a × IsNamed names a × AreCuts self }
        ensures { Wrote buf.old at (cut_of names.entry self.entry a) buf.new result }
    {
        if self.ends[a] != 1 {
            return at;
        }
        let next = names.put_site(b'X', a, buf, at);
        put_numbers(buf, next, self.size[a - 1], self.count[a - 1] as u64)
    }

    // The lines of the terminal cuts.
    fn put_cut_lines(self, names: Names, buf: &mut [u8], at: usize) -> usize
        requires { Room at (lines (cut_of names self) (sites self.many)) × AreNamed names self.many × AreCuts self }
        ensures { Wrote buf.old at (lines (cut_of names.entry self.entry) (sites self.entry.many)) buf.new result }
    {
        let mut next = at;
        for i in 0..self.many {
            next = self.put_cut_line(names, i + 1, buf, next);
        }
        next
    }
}

// The line of a pair.
fn put_pair(names: Names, pair: Pair, buf: &mut [u8], at: usize) -> usize
    requires { Room at (pair_line (name_in names) pair) × JoinsNamed names pair }
    ensures { Wrote buf.old at (pair_line (name_in names.entry) pair) buf.new result }
{
    let next = names.put_two_sites(b'P', pair.first, pair.second, buf, at);
    put_number(buf, next, pair.amount, 10)
}

// The lines of pairs.
fn put_pairs(names: Names, pairs: &[Pair], buf: &mut [u8], at: usize) -> usize
    requires { Room at (lines (pair_line (name_in names)) pairs.now) × AreJoined names pairs.now }
    ensures { Wrote buf.old at (lines (pair_line (name_in names.entry)) pairs.now) buf.new result }
{
    let mut next = at;
    for pair in pairs {
        next = put_pair(names, *pair, buf, next);
    }
    next
}

// The sum of the amounts of pairs.
fn amounts(pairs: &[Pair]) -> u64
    requires { total pairs.now ≤ 2 * (LINKS * SIZE) }
    ensures { result ≡ total pairs.now }
{
    let mut sum = 0;
    for pair in pairs {
        sum += pair.amount;
    }
    sum
}

// The heading over pairs, from the start of the buffer.
fn heading(word: &[u8], pairs: &[Pair], buf: &mut [u8]) -> usize
    requires { Room 0 (head_record word.now (total pairs.now) (length pairs.now))
        × (total pairs.now ≤ 2 * (LINKS * SIZE)) }
    ensures { Wrote buf.old 0 (head_record word.now (total pairs.now) (length pairs.now)) buf.new result }
{
    let halves = amounts(pairs);
    let next = put_bytes(buf, 0, word, 9);
    put_numbers(buf, next, halves, pairs.len() as u64)
}

// What a report shows: its word, where the names stand, the links, the sites, the lines `before` the pairs, and the pairs.
#[derive(Clone, Copy)]
pub struct PlanLists<'a> {
    pub word: &'a [u8],
    pub names: Names<'a>,
    pub links: LinkLists<'a>,
    pub sites: SiteLists<'a>,
    pub before: &'a [u8],
    pub pairs: &'a Pairs,
}

// The report of lists, from the start of the buffer as far as it goes, and its length: the heading with its word, the lines of the links, the sites and the
// terminal cuts, the lines `before` the pairs, and the lines of the pairs.
pub fn write(lists: PlanLists, buf: &mut [u8]) -> usize
    requires { CanShow lists }
    ensures { Wrote buf.old 0 (report_of (plan_in lists.entry)) buf.new result }
{
    let names = lists.names;
    let pairs = &lists.pairs.list[..lists.pairs.count];
    let head = heading(lists.word, pairs, buf);
    let links = lists.links.put_lines(names, buf, head);
    let sites = lists.sites.put_site_lines(names, buf, links);
    let cuts = lists.sites.put_cut_lines(names, buf, sites);
    let next = put_part(buf, cuts, lists.before);
    put_pairs(names, pairs, buf, next)
}

// Four numbers in decimal, the last fields of a line.
fn put_four(buf: &mut [u8], at: usize, first: u64, second: u64, third: u64, fourth: u64) -> usize
    requires { Room at (line (decimal first ∷ decimal second ∷ decimal third ∷ decimal fourth ∷ [])) }
    ensures { Wrote buf.old at (line (decimal first ∷ decimal second ∷ decimal third ∷ decimal fourth ∷ [])) buf.new result }
{
    let one = put_number(buf, at, first, 9);
    let two = put_number(buf, one, second, 9);
    put_numbers(buf, two, third, fourth)
}

// The links of a range sheet: the two sites of each, its low and its high size, and its least and its greatest trimmed size.
#[derive(Clone, Copy)]
pub struct RangeLists<'a> {
    pub one: &'a [usize],
    pub two: &'a [usize],
    pub low: &'a [u64],
    pub high: &'a [u64],
    pub least: &'a [u64],
    pub greatest: &'a [u64],
}

impl<'a> RangeLists<'a> {
    // The line of link j.
    fn put_line(self, names: Names, j: usize, buf: &mut [u8], at: usize) -> usize
        requires { Room at (range_of names self j) × AreRanges names self × (j < length self.one.now) }
        ensures { Wrote buf.old at (range_of names.entry self.entry j) buf.new result }
    {
        let next = names.put_two_sites(b'L', self.one[j], self.two[j], buf, at);
        put_four(
            buf,
            next,
            self.low[j],
            self.high[j],
            self.least[j],
            self.greatest[j],
        )
    }

    // The lines of the links.
    fn put_lines(self, names: Names, buf: &mut [u8], at: usize) -> usize
        requires { Room at (lines (range_of names self) (upfrom 0 (length self.one.now))) × AreRanges names self }
        ensures { Wrote buf.old at
            (lines (range_of names.entry self.entry) (upfrom 0 (length self.entry.one.now))) buf.new result }
    {
        let mut next = at;
        for j in 0..self.one.len() {
            next = self.put_line(names, j, buf, next);
        }
        next
    }
}

// What the report of a range sheet shows: the least and the greatest total, where the names stand, and the links.
#[derive(Clone, Copy)]
pub struct SpanLists<'a> {
    pub lower: u64,
    pub upper: u64,
    pub names: Names<'a>,
    pub ranges: RangeLists<'a>,
}

// The report of a range sheet, from the start of the buffer as far as it goes, and its length: the heading with the least and the greatest total, and the
// lines of the links.
pub fn write_span(lists: SpanLists, buf: &mut [u8]) -> usize
    requires { CanShowSpan lists }
    ensures { Wrote buf.old 0 (span_text (span_in lists.entry)) buf.new result }
{
    let word = put_bytes(buf, 0, b"span", 9);
    let head = put_numbers(buf, word, lists.lower, lists.upper);
    lists.ranges.put_lines(lists.names, buf, head)
}

// Stays: the number is a `u64` since C hands in any number.
// The line of a refusal, from the start of the buffer, and its length.
pub fn write_refusal(number: u64, line: usize, buf: &mut [u8]) -> usize
    ensures { Wrote buf.old 0 (refusal_line number line) buf.new result × (result ≤ 50) }
{
    let word = put_bytes(buf, 0, b"refused", 9);
    put_numbers(buf, word, number, line as u64)
}

// The line `Q` with the count of odd pieces, from the start of the buffer, and its length.
pub fn write_odd(count: usize, buf: &mut [u8]) -> usize
    ensures { Wrote buf.old 0 (odd_line count) buf.new result × (result ≤ 23) }
{
    let next = put_letter(buf, 0, b'Q', 9);
    put_number(buf, next, count as u64, 10)
}
