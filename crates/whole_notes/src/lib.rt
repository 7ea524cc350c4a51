// Inner: what the two ways of a plan in whole circuits note of a site (02, Card 2), and what a note becomes as its site, a child or the parent has its turn.
// Only the planner's own crates call it.
#![tactic(auto)]

ghost use Rattle.std.specs.Prelude.{◌≡◌, ◌-◌, ◌*◌, ◌≤◌, min, max};
ghost use Rattle.model.specs.Limits.{SITES, SIZE};
ghost use Rattle.lists.specs.Numbers.{pick, is};
ghost use Rattle.model.specs.WholeLoads.{highest, on_way, owner_at, new_top, top_load};
ghost use Rattle.whole_notes.specs.Notes.{Within, least_of, taken_note, joined_note, come_note, loaded_note};

// What the two ways note of a site: the loads that its children can bring together, from `least` to `most` in steps of 2; those that the link to the
// parent lets through, from `low` to `high`; the child with the greatest `high`; the terminal to which such children lead; the load of the link to the
// parent; the terminal whose set the site is in, or 0; and 1 if it is on the way of its set to the terminal.
#[derive(Clone, Copy, Default)]
pub struct Note {
    pub least: u32,
    pub most: u32,
    pub low: u32,
    pub high: u32,
    pub top: u16,
    pub goal: u16,
    pub load: u32,
    pub owner: u16,
    pub on: u8,
}

// The least load that the children of a site can bring together; a terminal is held to be above its capacity.
fn least_of(terminal: u8, capacity: u32, low: u32, high: u32, most: u32) -> u32
    requires { (capacity ≤ SIZE) × (low ≤ SIZE) × (high ≤ SIZE) }
    ensures { result ≡ least_of terminal capacity low high most }
{
    if terminal == 1 {
        return capacity + 2;
    }
    (low + high).saturating_sub(most).max(most % 2)
}

// The greatest load that the link to the parent lets through.
fn high_of(least: u32, most: u32, capacity: u32) -> u32
    requires { (most ≤ SITES * SIZE) × (capacity ≤ SIZE) }
    ensures { result ≡ highest least most capacity }
{
    if capacity < least {
        return capacity;
    }
    most.min(capacity.saturating_sub((capacity + most) % 2))
}

// The terminal to which a site leads: itself if it is one, else that of its greatest child.
fn goal_of(terminal: u8, v: u16, goal: u16) -> u16
    ensures { result ≡ pick terminal 1 v goal }
{
    if terminal == 1 {
        return v;
    }
    goal
}

// The greatest child of a site p, once v with the value `new` is taken; `old` is the greatest so far, with the value `was`. A terminal has none.
fn top_of(p: usize, terminal: u8, old: u16, was: u32, v: u16, new: u32) -> u16
    ensures { result ≡ new_top (λ x. 0) (λ x. 0) (λ x. terminal) p old was v new }
{
    if p == 0 {
        return 0;
    }
    if terminal == 1 {
        return 0;
    }
    if old == 0 {
        return v;
    }
    if was < new { v } else { old }
}

// 1 if the way of the parent's set leads on to v.
fn coming_of(on: u8, top: u16, v: u16) -> u8
    ensures { result ≡ pick on 1 (is top v) 0 }
{
    u8::from(on == 1 && top == v)
}

// 1 if a site is on the way of its set to the terminal.
fn on_of(least: u32, capacity: u32, coming: u8) -> u8
    ensures { result ≡ on_way least capacity coming }
{
    if least < 2 {
        return 0;
    }
    if capacity < least {
        return 1;
    }
    coming
}

// The terminal whose set a site is in, or 0.
fn owner_of(on: u8, goal: u16, most: u32, capacity: u32, up: u16) -> u16
    ensures { result ≡ owner_at on goal most capacity up }
{
    if on == 1 {
        return goal;
    }
    if most <= capacity {
        return up;
    }
    0
}

// The load of the greatest child of a site with h to share; a terminal leaves it as it is.
fn load_of(terminal: u8, old: u32, high: u32, h: u32) -> u32
    ensures { result ≡ pick terminal 1 old (top_load (λ x. 0) (λ x. 0) (λ x. 0) high h) }
{
    if terminal == 1 {
        return old;
    }
    high.saturating_sub(h % 2).min(h.saturating_sub(high))
}

impl Note {
    // The note of a site v as it is taken; `child` is that of its greatest child.
    pub fn taken(self, terminal: u8, capacity: u32, v: u16, child: Note) -> Note
        requires { (capacity ≤ SIZE) × Within (SITES * SIZE) self × Within (SITES * SIZE) child }
        ensures { result ≡ taken_note terminal capacity v self child }
    {
        let least = least_of(terminal, capacity, child.low, child.high, self.most);
        let high = high_of(least, self.most, capacity);
        Note {
            least,
            low: least.min(capacity),
            high,
            goal: goal_of(terminal, v, child.goal),
            load: high,
            ..self
        }
    }

    // The note of the parent p of v, once v with the value `high` is taken.
    pub fn joined(self, p: usize, terminal: u8, was: u32, v: u16, high: u32) -> Note
        requires { (self.most ≤ SITES * SIZE) × (high ≤ SIZE) }
        ensures { result ≡ joined_note terminal p was v high self }
    {
        Note {
            most: self.most + high,
            top: top_of(p, terminal, self.top, was, v, high),
            ..self
        }
    }

    // The note of a site v as it comes; `up` is that of its parent.
    pub fn come(self, capacity: u32, v: u16, up: Note) -> Note
        ensures { result ≡ come_note capacity v self up }
    {
        let on = on_of(self.least, capacity, coming_of(up.on, up.top, v));
        Note {
            owner: owner_of(on, self.goal, self.most, capacity, up.owner),
            on,
            ..self
        }
    }

    // The note of the greatest child of a site with h to share.
    pub fn loaded(self, terminal: u8, h: u32) -> Note
        ensures { result ≡ loaded_note terminal h self }
    {
        Note {
            load: load_of(terminal, self.load, self.high, h),
            ..self
        }
    }
}
