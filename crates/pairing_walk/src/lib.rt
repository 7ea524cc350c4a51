// Inner: the decomposition of balanced capacities into pairs (01: pairing), by a walk over each part of the tree (02, Card 7: it falls apart at its
// marked sites), from the root of the part. Only the planner's own crates call it.
#![tactic(auto)]

ghost use Rattle.std.specs.Prelude.{◌≡◌, suc, ◌*◌, ◌≤◌, ◌<◌, ◌+◌, ◌-◌, length, set, take};
ghost use Rattle.model.specs.Limits.{PLACES, SITES, SIZE};
ghost use Rattle.lists.specs.Numbers.{look, pick};
ghost use Rattle.model.specs.Pairing.{lowest_inner};
ghost use Rattle.pairing_halves.specs.Arrays.{Added};
ghost use Rattle.tree.specs.Offer.{links};
ghost use Rattle.pairing_walk.specs.Frames.{over, child_of, Entering, Entered, Passing, Passed};
ghost use Rattle.pairing_walk.specs.Visits.{covered, Fit, Laid, Begun, parts_to, pair_of, Linkable, singles_to, Singles, pairs_of};
ghost use Rattle.pairing_walk.specs.Visits.{listing};

use model::{PLACES, Pair, Pairs, SITES};
use pairing_children::Neighbours;
use pairing_halves::{Half, Tops};
use tree_links::Chains;

// A pair of zeros.
const NO_PAIR: Pair = Pair {
    first: 0,
    second: 0,
    amount: 0,
};

// 1 for a terminal and for a site that is done, which no walk starts from.
fn covered(v: usize, ends: &[u8; PLACES], done: &[u8]) -> u8
    requires { (v ≤ SITES) × (v < length done.now) }
    ensures { result ≡ covered (look ends.now) done.now v }
{
    if ends[v] == 1 {
        return 1;
    }
    done[v]
}

// The lowest inner site above `past`, among n, that is not done, 0 where there is none; it is done then.
// Stays: 0, and no `None`, as in the definition `lowest_inner`, which may not change.
fn next_root(past: usize, n: usize, ends: &[u8; PLACES], done: &mut [u8]) -> usize
    requires { (past ≤ n) × (n < length done.old) × (n ≤ SITES) }
    ensures { (result ≡ lowest_inner (covered (look ends.now) done.old) (suc past) (n - past))
        × (done.new ≡ pick result 0 done.old (set done.old result 1)) }
{
    for v in past + 1..n + 1 {
        if covered(v, ends, done) != 1 {
            done[v] = 1;
            return v;
        }
    }
    0
}

// A site whose children are walked: the link to its parent, what comes down over it, what remains for the children to send up,
// the ends of the lists when it was entered, the half link to the child to come, and that child, PLACES after the last.
// Stays: PLACES, and no `None`, since no child lies between one and the next, or the end: so `Comes` says the same of the end as of a child.
#[derive(Clone, Copy)]
struct Frame {
    site: usize,
    link: usize,
    down: u64,
    rest: u64,
    base: Tops,
    at: usize,
    next: usize,
}

// A child that the walk comes to: the link to it, and the halves that it sends up and that come down to it.
// The root is taken for one over a link past the last, over which nothing goes.
#[derive(Clone, Copy)]
struct Child {
    link: usize,
    up: u64,
    down: u64,
}

// The frame of site v, entered as a child of its parent, before its own first child.
fn enter(
    chains: &Chains,
    v: usize,
    child: Child,
    base: Tops,
    sums: &[u64; PLACES],
    near: &Neighbours,
) -> Frame
    requires { Entering v child.down sums.now near.now.first near.now.after chains.now.tree.one.now chains.now.tree.two.now }
    ensures { Entered (links chains.now.tree.one.now chains.now.tree.two.now) (look sums.now v) v child.link child.down base result }
{
    let sum = sums[v];
    let next = pairing_children::next_child(chains, near.first[v], child.link, &near.after);
    Frame {
        site: v,
        link: child.link,
        down: child.down,
        rest: sum - child.down,
        base,
        at: next.at,
        next: next.site,
    }
}

// The child to come of a site: it sends up the lesser of twice its capacity and of what remains, and the others come down.
fn child_of(frame: Frame, capacity: &[u64]) -> Child
    requires { (1 ≤ frame.at) × (over frame < length capacity.now) × (look capacity.now (over frame) ≤ SIZE) }
    ensures { result ≡ child_of (look capacity.now) frame }
{
    let link = (frame.at - 1) / 2;
    let both = 2 * capacity[link];
    let up = both.min(frame.rest);
    Child {
        link,
        up,
        down: both - up,
    }
}

// The frame once the child to come has sent up its halves, before the next child.
fn pass(chains: &Chains, frame: Frame, up: u64, near: &Neighbours) -> Frame
    requires { Passing frame up near.now.after chains.now.tree.one.now chains.now.tree.two.now }
    ensures { Passed (links chains.now.tree.one.now chains.now.tree.two.now) frame up result }
{
    let base = frame.base;
    let at = frame.at;
    let next = pairing_children::next_child(chains, near.after[at - 1], frame.link, &near.after);
    Frame {
        site: frame.site,
        link: frame.link,
        down: frame.down,
        rest: frame.rest - up,
        base,
        at: next.at,
        next: next.site,
    }
}

// The frame of a root: it is taken for a child over a link past the last, over which nothing goes.
fn enter_root(
    chains: &Chains,
    root: usize,
    base: Tops,
    sums: &[u64; PLACES],
    near: &Neighbours,
) -> Frame
    requires { Entering root 0 sums.now near.now.first near.now.after chains.now.tree.one.now chains.now.tree.two.now }
    ensures { Entered (links chains.now.tree.one.now chains.now.tree.two.now) (look sums.now root) root (length chains.now.tree.one.now) 0 base result }
{
    let whole = Child {
        link: chains.tree.one.len(),
        up: 0,
        down: 0,
    };
    enter(chains, root, whole, base, sums, near)
}

// The walks from the roots, `lowest` the lowest of them: the pairs are added to their list, and its end is returned. A site is done once a walk has
// entered it, and the next root is the lowest inner site that is not. The sites from the root to the one at hand stand in frames, the root's in the
// place of the number of sites, each child's in the place below.
fn visit(
    chains: &Chains,
    lowest: usize,
    ends: &[u8; PLACES],
    sums: &[u64; PLACES],
    near: &Neighbours,
    capacity: &[u64],
    done: &mut [u8],
    ups: &mut [Half],
    downs: &mut [Half],
    pairs: &mut [Pair],
) -> usize
    requires { Fit (suc (length chains.now.tree.one.now)) ends.now chains.now.tree.one.now chains.now.tree.two.now capacity.now
        × Laid sums.now near.now.first near.now.after chains.now.tree.one.now chains.now.tree.two.now capacity.now
        × Begun (suc (length chains.now.tree.one.now)) ends.now done.old lowest ups.old downs.old pairs.old }
    ensures { Added pairs.old 0 pairs.new result
        (parts_to (suc (length chains.now.tree.one.now)) ends.now chains.now.tree.one.now chains.now.tree.two.now capacity.now) }
{
    let sites = chains.tree.one.len() + 1;
    let mut level = sites;
    let mut root = lowest;
    let mut top = Tops {
        ups: 0,
        downs: 0,
        pairs: 0,
    };
    let mut frame = enter_root(chains, root, top, sums, near);
    let mut frames = [frame; PLACES];
    // Stays: the walk goes down to a child, back to a parent or on to a root, so there is no range or iterator to go over.
    loop {
        let c = frame.next;
        if c < PLACES {
            let child = child_of(frame, capacity);
            let passed = pass(chains, frame, child.up, near);
            if ends[c] == 1 {
                top = pairing_halves::alone(c, child.up, child.down, ups, downs, top);
                frame = passed;
                continue;
            }
            done[c] = 1;
            frames[level] = passed;
            level -= 1;
            frame = enter(chains, c, child, top, sums, near);
            continue;
        }
        let base = frame.base;
        top = pairing_halves::settle(frame.down, ups, downs, pairs, base, top);
        if level < sites {
            level += 1;
            frame = frames[level];
            continue;
        }
        root = next_root(root, sites, ends, done);
        if root == 0 {
            return top.pairs;
        }
        frame = enter_root(chains, root, top, sums, near);
    }
}

// The pairs of the parts that have a root, by their roots, written one after the other; the end of them.
#[inline(never)]
fn walk_parts(chains: &Chains, ends: &[u8; PLACES], capacity: &[u64], pairs: &mut [Pair]) -> usize
    requires { Fit (suc (length chains.now.tree.one.now)) ends.now chains.now.tree.one.now chains.now.tree.two.now capacity.now
        × (2 * SITES ≤ length pairs.old) }
    ensures { Added pairs.old 0 pairs.new result
        (parts_to (suc (length chains.now.tree.one.now)) ends.now chains.now.tree.one.now chains.now.tree.two.now capacity.now) }
{
    let mut done = [0u8; PLACES];
    let lowest = next_root(0, chains.tree.one.len() + 1, ends, &mut done);
    if lowest == 0 {
        return 0;
    }
    let near = pairing_children::list_neighbours(chains);
    let sums = tree_links::sums(chains.tree.one, chains.tree.two, capacity);
    let mut ups = [(0, 0); SITES];
    let mut downs = [(0, 0); SITES];
    visit(
        chains, lowest, ends, &sums, &near, capacity, &mut done, &mut ups, &mut downs, pairs,
    )
}

// The pair of link j, if it is single: one of twice its capacity, none for capacity 0. It is added to the pair list, whose end is returned.
fn join_link(
    chains: &Chains,
    j: usize,
    ends: &[u8; PLACES],
    capacity: &[u64],
    pairs: &mut [Pair],
    end: usize,
) -> usize
    requires { Linkable j chains.now.tree.one.now chains.now.tree.two.now capacity.now × (end < length pairs.old) }
    ensures { Added pairs.old end pairs.new result
        (pair_of ends.now chains.now.tree.one.now chains.now.tree.two.now capacity.now j) }
{
    let a = chains.tree.one[j];
    let b = chains.tree.two[j];
    if ends[a] != 1 {
        return end;
    }
    if ends[b] != 1 {
        return end;
    }
    if capacity[j] == 0 {
        return end;
    }
    let pair = Pair {
        first: a,
        second: b,
        amount: 2 * capacity[j],
    };
    pairing_halves::push_pair(pairs, end, pair)
}

// The pairs of the single links, written one after the other behind those of the other parts; the end of them.
fn join_links(
    chains: &Chains,
    ends: &[u8; PLACES],
    capacity: &[u64],
    pairs: &mut [Pair],
    from: usize,
) -> usize
    requires { Singles ends.now chains.now.tree.one.now chains.now.tree.two.now capacity.now from × (2 * SITES ≤ length pairs.old) }
    ensures { Added pairs.old from pairs.new result
        (singles_to (length chains.now.tree.one.now) ends.now chains.now.tree.one.now chains.now.tree.two.now capacity.now) }
{
    let mut end = from;
    for j in 0..chains.tree.one.len() {
        end = join_link(chains, j, ends, capacity, pairs, end);
    }
    end
}

// The first `count` pairs, with pairs of zeros behind them.
#[inline(never)]
fn listed(pairs: &[Pair], count: usize) -> Pairs
    requires { (count ≤ SITES) × (count ≤ length pairs.now) }
    ensures { result ≡ listing (take count pairs.now) }
{
    let mut list = [NO_PAIR; SITES];
    list[..count].copy_from_slice(&pairs[..count]);
    Pairs { list, count }
}

// The pairs of a tree with balanced capacities, part by part, in the order in which the walks make them, with pairs of zeros behind them.
pub fn decompose(chains: &Chains, ends: &[u8; PLACES], capacity: &[u64]) -> Pairs
    requires { Fit chains.now.tree.sites ends.now chains.now.tree.one.now chains.now.tree.two.now capacity.now }
    ensures { result ≡ listing (pairs_of chains.now.tree.sites ends.now chains.now.tree.one.now chains.now.tree.two.now capacity.now) }
{
    let mut pairs = [NO_PAIR; 2 * SITES];
    let walked = walk_parts(chains, ends, capacity, &mut pairs);
    let count = join_links(chains, ends, capacity, &mut pairs, walked);
    listed(&pairs, count)
}
