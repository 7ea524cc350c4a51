// Inner: lists of halves and of pairs in arrays: what the walk of pairing adds to them, and how those of a site are settled.
// Only the planner's own crates call it.
#![tactic(auto)]

ghost use Rattle.std.specs.Prelude.{◌≡◌, [], ◌∷◌, ◌+◌, ◌<◌, ◌≤◌, min, length};
ghost use Rattle.std.proofs.Math.Seq.{slice};
ghost use Rattle.model.specs.Pairing.{put};
ghost use Rattle.pairing_halves.specs.Arrays.{entry, Stands, Added, Kept, rest, Lies, still, onward, Cut, Fronts, Matchable, Matching, Settling, Settled};

use model::Pair;

// An entry of a list of halves: a site, and how many halves go to it.
pub type Half = (usize, u64);

// A place in a list of halves: in the entry at `at`, after `gone` of its halves.
#[derive(Clone, Copy)]
struct Place {
    at: usize,
    gone: u64,
}

// The ends of the three lists that a walk keeps.
#[derive(Clone, Copy)]
pub struct Tops {
    pub ups: usize,
    pub downs: usize,
    pub pairs: usize,
}

// Adds an entry at the end of a list of halves, none for an amount of 0, and returns the new end.
fn push(list: &mut [Half], end: usize, site: usize, amount: u64) -> usize
    requires { end < length list.old }
    ensures { Added list.old end list.new result (put site amount []) }
{
    if amount == 0 {
        return end;
    }
    list[end] = (site, amount);
    end + 1
}

// Adds a pair at the end of a list of pairs, where there is room, and returns the new end.
pub fn push_pair(list: &mut [Pair], end: usize, pair: Pair) -> usize
    requires { end < length list.old }
    ensures { Added list.old end list.new result (pair ∷ []) }
{
    list[end] = pair;
    end + 1
}

// What the entry at a place still has.
fn left(list: &[Half], f: Place) -> u64
    requires { (f.at < length list.now) × (f.gone ≤ (entry list.now f.at).1) }
    ensures { result ≡ still list.now f }
{
    list[f.at].1 - f.gone
}

// The place m halves on, in the entry at a place.
fn spend(list: &[Half], f: Place, m: u64) -> Place
    requires { (f.at < length list.now) × (f.gone + m ≤ (entry list.now f.at).1) }
    ensures { result ≡ onward f (entry list.now f.at).1 m }
{
    let amount = list[f.at].1;
    let gone = f.gone + m;
    if gone == amount {
        return Place {
            at: f.at + 1,
            gone: 0,
        };
    }
    Place { at: f.at, gone }
}

// The place k halves on in the list from `from` to `to`.
fn find(list: &[Half], from: usize, to: usize, k: u64) -> Place
    requires { Stands list.now from to }
    ensures { Cut list.now from to k result }
{
    let mut left = k;
    for at in from..to {
        let amount = list[at].1;
        if left < amount {
            return Place { at, gone: left };
        }
        left -= amount;
    }
    Place { at: to, gone: 0 }
}

// Pairs the entries at two places, by the lesser of the amounts that they still have, which is returned.
fn pair_fronts(
    ups: &[Half],
    up: Place,
    downs: &[Half],
    down: Place,
    pairs: &mut [Pair],
    end: usize,
) -> u64
    requires { Fronts ups.now up downs.now down × (end < length pairs.old) }
    ensures amount { result ≡ min (still ups.now up) (still downs.now down) }
    ensures pair { Added pairs.old end pairs.new (end + 1)
        (record { first = (entry ups.now up.at).0; second = (entry downs.now down.at).0; amount = result } ∷ []) }
{
    let amount = left(ups, up).min(left(downs, down));
    let first = ups[up.at].0;
    let second = downs[down.at].0;
    push_pair(
        pairs,
        end,
        Pair {
            first,
            second,
            amount,
        },
    );
    amount
}

// Where a match ends: its place in the up list, and the end of the pair list.
#[derive(Clone, Copy)]
struct Matched {
    place: Place,
    end: usize,
}

// Pairs the up list from `from` on with the down list from a place on, from the left,
// always the lesser of the two front amounts, until the down list ends.
fn match_lists(
    ups: &[Half],
    from: usize,
    downs: &[Half],
    first: Place,
    pairs: &mut [Pair],
    top: Tops,
) -> Matched
    requires { Matchable ups.now from downs.now first pairs.old top }
    ensures { Matching ups.now from downs.now first pairs.old top pairs.new result.place result.end }
{
    let mut up = Place { at: from, gone: 0 };
    let mut down = first;
    let mut end = top.pairs;
    // Stays: the place goes on within an entry or to the next, so there is no range or iterator to go over.
    while down.at < top.downs {
        let amount = pair_fronts(ups, up, downs, down, pairs, end);
        up = spend(ups, up, amount);
        down = spend(downs, down, amount);
        end += 1;
    }
    Matched { place: up, end }
}

// Moves the entries from `from` to `to` down to `base`, and returns their end.
fn move_down(list: &mut [Half], from: usize, to: usize, base: usize) -> usize
    requires { (base ≤ from) × (from ≤ to) × (to ≤ length list.old) }
    ensures { Added list.old base list.new result (slice from to list.old) }
{
    let gap = from - base;
    for i in from..to {
        list[i - gap] = list[i];
    }
    to - gap
}

// Keeps what lies behind a place of the list that ends at `to`, from `base` on, and returns its end.
fn keep_last(list: &mut [Half], place: Place, to: usize, base: usize) -> usize
    requires { Lies list.old place to × (base ≤ place.at) }
    ensures { Kept list.old to base list.new result (rest list.old place to) }
{
    let at = place.at;
    if to <= at {
        return base;
    }
    list[at].1 -= place.gone;
    move_down(list, at, to, base)
}

// Keeps the halves before a place in the entry there, and returns the new end of its list.
fn keep_first(list: &mut [Half], place: Place) -> usize
    requires { place.at < length list.old }
    ensures { Added list.old place.at list.new result (put (entry list.old place.at).0 place.gone []) }
{
    let at = place.at;
    let site = list[at].0;
    push(list, at, site, place.gone)
}

// Steps 3 and 4 of the walk, over the lists that the children of a site left between `base` and `top`:
// the first `down` halves of the down list stay, the others are matched with the up list, and what is left of that stays.
pub fn settle(
    down: u64,
    ups: &mut [Half],
    downs: &mut [Half],
    pairs: &mut [Pair],
    base: Tops,
    top: Tops,
) -> Tops
    requires { Settling ups.old downs.old pairs.old base top down }
    ensures { Settled ups.old downs.old pairs.old base top down ups.new downs.new
        pairs.new result }
{
    let cut = find(downs, base.downs, top.downs, down);
    let matched = match_lists(ups, base.ups, downs, cut, pairs, top);
    Tops {
        ups: keep_last(ups, matched.place, top.ups, base.ups),
        downs: keep_first(downs, cut),
        pairs: matched.end,
    }
}

// Step 2 of the walk: a terminal has an up list and a down list of itself, where there is room.
pub fn alone(
    site: usize,
    up: u64,
    down: u64,
    ups: &mut [Half],
    downs: &mut [Half],
    base: Tops,
) -> Tops
    requires { (base.ups < length ups.old) × (base.downs < length downs.old) }
    ensures ups { Added ups.old base.ups ups.new result.ups (put site up []) }
    ensures downs { Added downs.old base.downs downs.new result.downs (put site down []) }
    ensures pairs { result.pairs ≡ base.pairs }
{
    Tops {
        ups: push(ups, base.ups, site, up),
        downs: push(downs, base.downs, site, down),
        pairs: base.pairs,
    }
}
