// Inner: the link that two regions share (document 02, Card 10): for each site its partner, the site of the other sheet that has its name, and from there
// whether the regions share one link, and which. Only the planner's own crates call it.
#![tactic(auto)]

ghost use Rattle.std.specs.Prelude.{◌≡◌, suc, ◌*◌, ◌≤◌, eqb, length};
ghost use Rattle.lists.specs.Numbers.{pick, is, differ, sum, look};
ghost use Rattle.model.specs.Limits.{SITES};
ghost use Rattle.sheet_names.specs.Names.{ranges, Distinct};
ghost use Rattle.theory_regions.specs.Sharing.{first_from};
ghost use Rattle.tree.specs.Offer.{links};
ghost use Rattle.tree_links.specs.Chains.{Placed};
ghost use Rattle.region_links.specs.Partners.{partner_in, Holds, both_in, joining};

use model::{PLACES, SITES};

// The partner of each site of the first sheet at its place: the site of the second sheet that has its name, in either case; 0 where there is none.
pub fn partners(
    first: &[u8],
    starts: &[usize; SITES],
    stops: &[usize; SITES],
    n: usize,
    second: &[u8],
    starts2: &[usize; SITES],
    stops2: &[usize; SITES],
    m: usize,
) -> [usize; PLACES]
    requires { (n ≤ SITES) × (m ≤ SITES) × Distinct second.now (ranges starts2.now stops2.now 0 m) }
    ensures { Holds n (partner_in first.now (ranges starts.now stops.now 0 n)
        second.now (ranges starts2.now stops2.now 0 m)) result }
{
    let table = sheet_names::index(second, starts2, stops2, m);
    let mut list = [0usize; PLACES];
    for i in 0..n {
        let name = sheet_names::part(first, starts[i], stops[i]);
        let found = sheet_names::find(second, starts2, stops2, m, &table, name);
        list[i + 1] = found.unwrap_or(0);
    }
    list
}

// 1 for a partner, 0 for none.
fn counted(partner: usize) -> usize
    ensures { result ≡ differ partner 0 }
{
    if partner == 0 {
        return 0;
    }
    1
}

// The number of names in common.
pub fn commons(n: usize, partners: &[usize; PLACES]) -> usize
    requires { n ≤ SITES }
    ensures { result ≡ sum n (λ i. differ (look partners.now (suc i)) 0) }
{
    let mut count: usize = 0;
    for i in 0..n {
        count += counted(partners[i + 1]);
    }
    count
}

// Whether two sites have partners.
fn both(partners: &[usize; PLACES], x: usize, y: usize) -> bool
    requires { (x ≤ SITES) × (y ≤ SITES) }
    ensures { result ≡ eqb (differ (look partners.now x) 0 * differ (look partners.now y) 0) 1 }
{
    if partners[x] == 0 {
        return false;
    }
    partners[y] != 0
}

// The first link between two sites that have partners; the number of links where there is none.
pub fn shared_first(one: &[usize], two: &[usize], partners: &[usize; PLACES]) -> usize
    requires { Placed one.now two.now }
    ensures { result ≡ first_from (both_in (look partners.now) (links one.now two.now)) 0 (length one.now) }
{
    for j in 0..one.len() {
        if both(partners, one[j], two[j]) {
            return j;
        }
    }
    one.len()
}

// Whether v is one of the two sites of a link.
fn is_at(first: usize, second: usize, v: usize) -> bool
    ensures { result ≡ eqb (pick first v 1 (is second v)) 1 }
{
    if first == v {
        return true;
    }
    second == v
}

// Whether both x and y are among the two sites of a link.
fn joins(first: usize, second: usize, x: usize, y: usize) -> bool
    ensures { result ≡ eqb (pick first x 1 (is second x) * pick first y 1 (is second y)) 1 }
{
    if is_at(first, second, x) {
        return is_at(first, second, y);
    }
    false
}

// The first link that x and y are both at; the number of links where there is none.
pub fn shared_second(one: &[usize], two: &[usize], x: usize, y: usize) -> usize
    requires { length two.now ≡ length one.now }
    ensures { result ≡ first_from (joining (links one.now two.now) x y) 0 (length one.now) }
{
    for k in 0..one.len() {
        if joins(one[k], two[k], x, y) {
            return k;
        }
    }
    one.len()
}
