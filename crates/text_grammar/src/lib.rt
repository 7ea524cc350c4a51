// Inner: the grammar of a line (document 01, "The network sheet"): its fields in one pass, and the first rule of a form that they break.
// Only the planner's own crates call it.
#![tactic(auto)]

ghost use Rattle.std.specs.Prelude.{◌≡◌, ◌+◌, ◌-◌, ◌*◌, ◌≤◌, ◌<◌, leb, length, set};
ghost use Rattle.std.proofs.Math.Seq.{slice};
ghost use Rattle.text_fields.specs.Fields.{fields, field, all};
ghost use Rattle.text_grammar.specs.Grammar.{FIELDS, split, keeps, checked_fields, Fits, checked, number_of, fault_of, size_of};

// The most fields that a form has. specs/Grammar.antt has it by the same name.
pub const FIELDS: usize = 5;

// The fields of a line: the places where the first of them end, and how many there are. A field starts one place past the end of the
// field before it.
#[derive(Clone, Copy)]
pub struct Fields {
    pub end: [usize; FIELDS],
    pub count: usize,
}

// The form of a line: its letter, how many names follow, and the least and the most numbers that follow them.
#[derive(Clone, Copy)]
pub struct Form {
    pub letter: u8,
    pub names: usize,
    pub least: usize,
    pub most: usize,
}

// The rules of a form, in their order: a line that is not formed breaks one of them first.
#[derive(Clone, Copy, PartialEq, Eq, Debug)]
pub enum Broken {
    Letter,
    Count,
    Name,
    Digits,
    Number,
}

// What some fields of a line have to be: names, not of digits alone, or numbers.
// Stays: a closure in the place of this enum is no plainer, since the contract of `all_keep` would have to say in general what it answers of each field,
// where `keeps` in specs/ says it of the three.
#[derive(Clone, Copy)]
enum Rule {
    Name,
    Lettered,
    Number,
}

// The ends of fields, with one more where there is a place for it.
#[tactic(auto, using(crate::specs::SplitLaws::set_past))]
fn mark(end: &mut [usize; FIELDS], k: usize, place: usize)
    requires { length end.old ≡ FIELDS }
    ensures { end.new ≡ set end.old k place }
{
    if k < FIELDS {
        end[k] = place;
    }
}

// The fields of a line.
pub fn split(line: &[u8]) -> Fields
    ensures { result ≡ split line.now }
{
    let mut end = [0; FIELDS];
    let mut count = 0;
    for (i, b) in line.iter().enumerate() {
        if *b == b'\t' {
            mark(&mut end, count, i);
            count += 1;
        }
    }
    mark(&mut end, count, line.len());
    Fields {
        end,
        count: count + 1,
    }
}

// Field k of a line.
pub fn field(line: &[u8], found: Fields, k: usize) -> &[u8]
    requires { (found ≡ split line.now) × (k < FIELDS) × (k < found.count) }
    ensures { result.now ≡ field (fields line.now) k }
{
    let end = found.end[k];
    if k == 0 {
        return &line[..end];
    }
    let before = k - 1;
    let start = found.end[before] + 1;
    &line[start..end]
}

// Whether a field keeps a rule.
fn keeps(field: &[u8], rule: Rule) -> bool
    ensures { result ≡ keeps rule field.now }
{
    match rule {
        Rule::Name => text_fields::is_name(field),
        Rule::Lettered => !text_fields::digits_alone(field),
        Rule::Number => text_fields::is_number(field),
    }
}

// Whether each field from one number on, before another, keeps a rule.
fn all_keep(line: &[u8], found: Fields, from: usize, to: usize, rule: Rule) -> bool
    requires { (found ≡ split line.now) × (to ≤ found.count) × (to ≤ FIELDS) }
    ensures { result ≡ all (keeps rule) (slice from to (fields line.now)) }
{
    for k in from..to {
        if !keeps(field(line, found, k), rule) {
            return false;
        }
    }
    true
}

// What the fields after the first are found to be: as many names as given, none of digits alone, then numbers.
#[tactic(auto, using(crate::specs::SplitLaws::count_of_split), unfolding(crate::specs::Grammar::checked_fields))]
fn check_fields(line: &[u8], found: Fields, names: usize) -> Result<(), Broken>
    requires { (found ≡ split line.now) × (found.count ≤ FIELDS) × (names < found.count) }
    ensures { result ≡ checked_fields names (fields line.now) }
{
    let end = 1 + names;
    if !all_keep(line, found, 1, end, Rule::Name) {
        return Err(Broken::Name);
    }
    if !all_keep(line, found, 1, end, Rule::Lettered) {
        return Err(Broken::Digits);
    }
    if !all_keep(line, found, end, found.count, Rule::Number) {
        return Err(Broken::Number);
    }
    Ok(())
}

// What a line is found to be when its fields are held against a form.
#[tactic(auto, using(crate::specs::SplitLaws::count_of_split), unfolding(crate::specs::Grammar::checked))]
pub fn check_line(line: &[u8], found: Fields, form: Form) -> Result<(), Broken>
    requires { (found ≡ split line.now) × Fits form }
    ensures { result ≡ checked form (fields line.now) }
{
    if !text_fields::is_byte(field(line, found, 0), form.letter) {
        return Err(Broken::Letter);
    }
    if found.count < 1 + form.names + form.least {
        return Err(Broken::Count);
    }
    if found.count > 1 + form.names + form.most {
        return Err(Broken::Count);
    }
    check_fields(line, found, form.names)
}

impl Broken {
    // The number of the fault of a line that breaks a rule.
    pub fn number(self) -> u64
        ensures { result ≡ number_of self }
    {
        match self {
            Broken::Letter => 2,
            Broken::Count => 10,
            Broken::Name => 11,
            Broken::Digits => 17,
            Broken::Number => 12,
        }
    }
}

// The number of the fault that a line has, and 0 where it is formed.
#[tactic(auto, unfolding(crate::specs::Grammar::fault_of))]
pub fn fault(check: Result<(), Broken>) -> u64
    ensures { result ≡ fault_of check }
{
    match check {
        Ok(()) => 0,
        Err(broken) => broken.number(),
    }
}

// The value of a string of digits, of any length, if it is at most `most`.
pub fn size_of(s: &[u8], most: u64) -> Option<u64>
    ensures { result ≡ size_of most s.now }
{
    let mut value: u64 = 0;
    for b in s {
        let digit = u64::from(b.saturating_sub(b'0'));
        value = value.checked_mul(10)?.checked_add(digit)?;
        if value > most {
            return None;
        }
    }
    Some(value)
}
