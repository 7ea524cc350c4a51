// Inner: the cuts of any terminals. Sites are grouped by the links whose balanced capacity is below the given one: for each group the
// capacities of the links that leave it and the set of its sites, and for each site the terminal of its group. Only the planner's own crates call it.
// The cuts stand in three lists, lent as zeros, at place x - 1 for site x: the terminal whose cut holds the site, and for a terminal the size and the
// number of sites of its cut. Places of other sites and places past the last site hold 0.
#![tactic(auto)]

ghost use Rattle.std.specs.Prelude.{◌≡◌, map, ℕ, ◌+◌, ◌*◌, ◌≤◌, length, replicate};
ghost use Rattle.model.specs.Limits.{PLACES, SETS, SITES};
ghost use Rattle.lists.specs.Numbers.{upfrom, look};
ghost use Rattle.model.specs.Cuts.{group};
ghost use Rattle.model.specs.Whole.{EndSets};
ghost use Rattle.tree.specs.Offer.{links};
ghost use Rattle.tree_parents.specs.Parents.{Lower, Tells};
ghost use Rattle.tree_links.specs.Chains.{Placed, Limited};
ghost use Rattle.tree_sets.specs.Members.{member};
ghost use Rattle.cuts_groups.specs.Groups.{Addable, Tallied, leaves, leaving, labelled, in_words};
ghost use Rattle.cuts_groups.specs.Places.{places, of_terminal};
ghost use Rattle.cuts_groups.specs.Steps.{Blank, owning, members, claim, owners_to, cuts_by, owned, sets_of};

use model::{PLACES, SETS, SITES, WORDS};
use tree_sets::Set;

// The owner of a place without one.
pub const NONE: usize = 0;

// Joins the sites of the links whose balanced capacity is below the given one, the last link first.
fn join_kept(one: &[usize], two: &[usize], capacity: &[u64], balanced: &[u64], parents: &mut [u16])
    requires { (parents.old ≡ upfrom 0 PLACES) × Placed one.now two.now × Limited one.now capacity.now
        × (length balanced.now ≡ length one.now) }
    ensures { (length parents.new ≡ PLACES) × Lower parents.new × Tells parents.new
        (group (links one.now two.now) (look capacity.now) (look balanced.now)) }
{
    for j in (0..one.len()).rev() {
        if balanced[j] < capacity[j] {
            tree_parents::join(parents, one[j], two[j]);
        }
    }
}

// Adds d at the labels of two sites, nothing where they have the same label.
fn add_at_labels(sums: &mut [u64; PLACES], labels: &[u16; PLACES], one: usize, two: usize, d: u64)
    requires { Addable sums.old labels.now one two d }
    ensures { (length sums.new ≡ PLACES)
        × ((l : ℕ) → look sums.new l ≡ look sums.old l + leaves labels.now one two l * d) }
{
    let a = usize::from(labels[one]);
    let b = usize::from(labels[two]);
    if a != b {
        sums[a] += d;
        sums[b] += d;
    }
}

// For each label the capacities of the links that leave its sites, summed, into a list of zeros.
fn sums_leaving(
    one: &[usize],
    two: &[usize],
    capacity: &[u64],
    labels: &[u16; PLACES],
    sums: &mut [u64; PLACES],
)
    requires { Placed one.now two.now × Limited one.now capacity.now × ((x : ℕ) → look labels.now x ≤ SITES)
        × (sums.old ≡ replicate PLACES 0) }
    ensures { (l : ℕ) → look sums.new l
        ≡ leaving labels.now one.now two.now capacity.now l }
{
    for j in 0..one.len() {
        add_at_labels(sums, labels, one[j], two[j], capacity[j]);
    }
}

// The groups of a tree's sites, by the given and the balanced capacities of its links: the label of each site, and at place l of a list of zeros the sum
// of label l.
fn of_links(
    one: &[usize],
    two: &[usize],
    capacity: &[u64],
    balanced: &[u64],
    leaving: &mut [u64; PLACES],
) -> [u16; PLACES]
    requires { Placed one.now two.now × Limited one.now capacity.now × (length balanced.now ≡ length one.now)
        × (leaving.old ≡ replicate PLACES 0) }
    ensures { Tallied (links one.now two.now) (look capacity.now) (look balanced.now) result
        leaving.new }
{
    let mut labels = tree_labels::own_labels();
    join_kept(one, two, capacity, balanced, &mut labels);
    tree_parents::settle(&mut labels);
    sums_leaving(one, two, capacity, &labels, leaving);
    labels
}

// For each label the places of its sites among the first n, as a set of WORDS words: that of label l from word WORDS l on, in a list of zeros. Place i is
// that of site i + 1.
fn sets(n: usize, labels: &[u16; PLACES], words: &mut [u64; SETS])
    requires { (n ≤ SITES) × ((x : ℕ) → look labels.now x ≤ SITES) × (words.old ≡ replicate SETS 0) }
    ensures { (l i : ℕ) → in_words words.new l i ≡ labelled n labels.now l i }
{
    for i in 0..n {
        let w = usize::from(labels[i + 1]) * WORDS + i / 64;
        words[w] |= 1u64 << i % 64;
    }
}

// The set of a label: the WORDS words from word WORDS l on for label l.
fn cut_of(words: &[u64; SETS], label: u16) -> Set
    requires { label ≤ SITES }
    ensures { (i : ℕ) → member result i ≡ in_words words.now label i }
{
    let from = usize::from(label) * WORDS;
    let mut own = [0u64; WORDS];
    own.copy_from_slice(&words[from..from + WORDS]);
    Set { words: own }
}

// Puts a where the cut has a place without an owner.
#[tactic(auto, using(crate::proofs::Owners::put_at_none, crate::proofs::Owners::put_at_free, crate::proofs::Owners::put_at_owned, crate::proofs::Owners::above_each))]
fn put_owner(owner: &mut [usize; SITES], cut: Set, a: usize)
    requires { length owner.old ≡ SITES }
    ensures { owner.new ≡ map (claim owner.old (member cut) a) (upfrom 0 SITES) }
{
    for i in cut.members() {
        if owner[i] == NONE {
            owner[i] = a;
        }
    }
}

// Puts terminal a where its cut has a place without an owner, and tells how many sites the cut has.
fn take_cut(
    owner: &mut [usize; SITES],
    words: &[u64; SETS],
    labels: &[u16; PLACES],
    a: usize,
) -> usize
    requires { (length owner.old ≡ SITES) × (a ≤ SITES) × (look labels.now a ≤ SITES) }
    ensures { (owner.new ≡ map (claim owner.old (in_words words.now (look labels.now a)) a) (upfrom 0 SITES))
        × (result ≡ members (in_words words.now) labels.now a) }
{
    let cut = cut_of(words, labels[a]);
    put_owner(owner, cut, a);
    cut.count()
}

// Puts the terminals among n sites at the places of their cuts without an owner, and into a list of zeros how many sites each cut has.
fn put_owners(
    n: usize,
    words: &[u64; SETS],
    labels: &[u16; PLACES],
    ends: &[u8; PLACES],
    owner: &mut [usize; SITES],
    count: &mut [usize; SITES],
)
    requires { (n ≤ SITES) × ((x : ℕ) → look labels.now x ≤ SITES) × (length owner.old ≡ SITES) × (count.old ≡ replicate SITES 0) }
    ensures { (owner.new ≡ owners_to (in_words words.now) labels.now owner.old ends.now n)
        × (count.new ≡ places n (of_terminal (look ends.now) (members (in_words words.now) labels.now))) }
{
    for i in 0..n {
        if ends[i + 1] == 1 {
            count[i] = take_cut(owner, words, labels, i + 1);
        }
    }
}

// The sums at the labels of the terminals among n sites, into a list of zeros.
fn terminal_sizes(
    n: usize,
    labels: &[u16; PLACES],
    ends: &[u8; PLACES],
    leaving: &[u64; PLACES],
    size: &mut [u64; SITES],
)
    requires { (n ≤ SITES) × ((x : ℕ) → look labels.now x ≤ SITES) × (size.old ≡ replicate SITES 0) }
    ensures { size.new
        ≡ places n (of_terminal (look ends.now) (λ a. look leaving.now (look labels.now a))) }
{
    for i in 0..n {
        let x = i + 1;
        if ends[x] == 1 {
            size[i] = leaving[usize::from(labels[x])];
        }
    }
}

// The cuts of the terminals among n sites, by the labels of the sites, the ends and the sums at the labels.
fn cuts_by(
    n: usize,
    labels: &[u16; PLACES],
    ends: &[u8; PLACES],
    leaving: &[u64; PLACES],
    owner: &mut [usize; SITES],
    size: &mut [u64; SITES],
    count: &mut [usize; SITES],
)
    requires { (n ≤ SITES) × ((x : ℕ) → look labels.now x ≤ SITES) × Blank owner.old size.old count.old }
    ensures { owning owner.new size.new count.new
        ≡ cuts_by n labels.now ends.now leaving.now }
{
    let mut words = [0u64; SETS];
    sets(n, labels, &mut words);
    put_owners(n, &words, labels, ends, owner, count);
    terminal_sizes(n, labels, ends, leaving, size);
}

// The cuts of the terminals `ends` of n sites, by the given and the balanced capacities of the links.
pub fn cuts_of(
    n: usize,
    ends: &[u8; PLACES],
    one: &[usize],
    two: &[usize],
    capacity: &[u64],
    balanced: &[u64],
    owner: &mut [usize; SITES],
    size: &mut [u64; SITES],
    count: &mut [usize; SITES],
)
    requires { (n ≤ SITES) × Placed one.now two.now × Limited one.now capacity.now × (length balanced.now ≡ length one.now)
        × Blank owner.old size.old count.old }
    ensures { owning owner.new size.new count.new
        ≡ owned (links one.now two.now) n (look ends.now) (look capacity.now) (look balanced.now) }
{
    let mut leaving = [0u64; PLACES];
    let labels = of_links(one, two, capacity, balanced, &mut leaving);
    cuts_by(n, &labels, ends, &leaving, owner, size, count);
}

// The sets of the terminals `ends` of n sites, where each site is labelled with the terminal whose set holds it, or with 0 where none does.
pub fn sets_of(
    n: usize,
    ends: &[u8; PLACES],
    one: &[usize],
    two: &[usize],
    capacity: &[u64],
    labels: &[u16; PLACES],
    owner: &mut [usize; SITES],
    size: &mut [u64; SITES],
    count: &mut [usize; SITES],
)
    requires { (n ≤ SITES) × Placed one.now two.now × Limited one.now capacity.now × EndSets n (look ends.now) (look labels.now)
        × ((x : ℕ) → look labels.now x ≤ SITES) × Blank owner.old size.old count.old }
    ensures { owning owner.new size.new count.new
        ≡ sets_of (links one.now two.now) n (look ends.now) (look capacity.now) (look labels.now) }
{
    let mut leaving = [0u64; PLACES];
    sums_leaving(one, two, capacity, labels, &mut leaving);
    cuts_by(n, labels, ends, &leaving, owner, size, count);
}
