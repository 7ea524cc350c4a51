// What every crate of the planner shares: an entry of a multiflow, and the limits of an edition of the sheet.
#![tactic(auto)]

ghost use Rattle.std.specs.Prelude.{◌≡◌};
ghost use Rattle.model.specs.Edition.{edition1, edition2, ranges_low, ranges_high};
ghost use Rattle.model.specs.TextRefusals.{in_text};

// The limits of the planner: every length of an array is one of these. specs/Limits.antt has them by the same names.

// The largest number of sites of a tree.
pub const SITES: usize = 384;

// The largest number of links: a tree has one less than sites.
pub const LINKS: usize = SITES - 1;

// Places of a list with one for each site: place x is that of site x, and place 0 is unused.
pub const PLACES: usize = SITES + 1;

// Places of the chains of links: two for each link.
pub const CHAINS: usize = 2 * SITES;

// Numbers that spell a list of halves: two for each entry.
pub const HALVES: usize = 2 * SITES;

// Numbers that spell a pair list: three for each pair.
pub const NUMBERS: usize = 3 * SITES;

// Words of 64 bits of a set of sites, SITES being a multiple of 64.
pub const WORDS: usize = SITES / 64;

// Words of a set of sites for each label.
pub const SETS: usize = WORDS * PLACES;

// The largest number of bytes of a sheet.
pub const BYTES: usize = 24576;

// The largest size of a link.
pub const SIZE: u64 = 1000000;

// Bytes that are enough for every report.
pub const REPORT: usize = 65536;

// The largest number of lines of a booking log.
pub const LOGLINES: usize = 4096;

// The largest number of bytes of a booking log.
pub const LOGBYTES: usize = 65536;

// The largest amount of a line of a booking log, in halves.
pub const AMOUNT: u64 = 2 * SIZE;

// The largest number of pairs that are open together.
pub const OPEN: usize = 512;

// The largest number of lines of a plan drawn by hand.
pub const PLANLINES: usize = 1024;

// The largest number of bytes of a plan drawn by hand.
pub const PLANBYTES: usize = 65536;

// Words of the table of paths: a set of links for each site.
pub const ROWS: usize = WORDS * PLACES;

// An entry of a multiflow (01: a pair of a plan): two sites and the amount between them.
#[derive(Clone, Copy)]
pub struct Pair {
    pub first: usize,
    pub second: usize,
    pub amount: u64,
}

// A pair list: the first `count` places hold its pairs.
#[derive(Clone, Copy)]
pub struct Pairs {
    pub list: [Pair; SITES],
    pub count: usize,
}

// What a line of a booking log asks (02, Card 6): to open or to give up an amount, in halves, between two sites; or its fault's number, which asks nothing.
#[derive(Clone, Copy)]
pub enum Request {
    Open(Pair),
    GiveUp(Pair),
    Fault(u64),
}

// A refusal: its number, and the line with the fault, or 0 where no line has it.
#[derive(Clone, Copy, PartialEq, Eq, Debug)]
pub struct Refusal {
    pub number: u64,
    pub line: usize,
}

// A refusal of one of two texts: the text, 1 or 2, or 0 for both together, with the refusal's number and line.
#[derive(Clone, Copy, PartialEq, Eq, Debug)]
pub struct TextRefusal {
    pub text: u64,
    pub number: u64,
    pub line: usize,
}

impl Refusal {
    // This refusal, told as that of one of two texts.
    pub fn in_text(self, text: u64) -> TextRefusal
        ensures { result ≡ in_text self text }
    {
        TextRefusal {
            text,
            number: self.number,
            line: self.line,
        }
    }
}

// What a sheet's link lines give (02, Cards 5 and 11): a size and maybe a reserve; or a low and a high size, of which the low one, or the high one, is taken
// for the capacity.
#[derive(Clone, Copy)]
pub enum Sizing {
    Reserved,
    Low,
    High,
}

// An edition of the sheet (01: edition; 02, Card 8): what its link lines give, the digit in its heading, and the limits that go with it: bytes of a sheet,
// sites, the size of a link.
#[derive(Clone, Copy)]
pub struct Edition {
    pub sizing: Sizing,
    pub digit: u8,
    pub bytes: usize,
    pub sites: usize,
    pub size: u64,
}

impl Edition {
    pub const FIRST_BYTES: usize = 16384;

    pub const FIRST_SITES: usize = 256;

    pub const SECOND_BYTES: usize = BYTES;

    pub const SECOND_SITES: usize = SITES;

    pub const SIZE: u64 = SIZE;

    // Edition 1.
    pub fn first() -> Self
        ensures { result ≡ edition1 }
    {
        Edition {
            sizing: Sizing::Reserved,
            digit: b'1',
            bytes: Edition::FIRST_BYTES,
            sites: Edition::FIRST_SITES,
            size: Edition::SIZE,
        }
    }

    // Edition 2.
    pub fn second() -> Self
        ensures { result ≡ edition2 }
    {
        Edition {
            sizing: Sizing::Reserved,
            digit: b'2',
            bytes: Edition::SECOND_BYTES,
            sites: Edition::SECOND_SITES,
            size: Edition::SIZE,
        }
    }

    // A range sheet (02, Card 11), its low sizes taken.
    pub fn low() -> Self
        ensures { result ≡ ranges_low }
    {
        Edition {
            sizing: Sizing::Low,
            digit: b'1',
            bytes: Edition::SECOND_BYTES,
            sites: Edition::SECOND_SITES,
            size: Edition::SIZE,
        }
    }

    // A range sheet, its high sizes taken.
    pub fn high() -> Self
        ensures { result ≡ ranges_high }
    {
        Edition {
            sizing: Sizing::High,
            digit: b'1',
            bytes: Edition::SECOND_BYTES,
            sites: Edition::SECOND_SITES,
            size: Edition::SIZE,
        }
    }
}
