// The sheet ("The sheet" of document 01): its bounds, its words and their parts, and the types of what is read from them.
#![tactic(auto)]

ghost use Rattle.std.specs.Prelude.{◌≡◌, ◌+◌, ◌*◌, ◌^◌, ◌<◌};
ghost use Rattle.sheet.specs.Sheet.{kind as kind_of, payload as payload_of, place_of, word as word_of};
ghost use Rattle.sheet.specs.Reading.{Legible};

// How many lifts and how many new rounds a sheet has.
#[derive(Clone, Copy)]
pub struct Sheet {
    pub lifts: usize,
    pub rounds: usize,
}

impl Sheet {
    pub const MOST_LIFTS: usize = 4096;

    pub const MOST_ROUNDS: usize = 100;

    pub const LARGEST_SUM: u64 = 1048576;
    // What stands for the new measure of a lift that was not counted: 21 bits, all ones.
    pub const NOT_COUNTED: u64 = 0x1F_FFFF;
    // Three words for each lift, a held word for each old round, and the end word.
    pub const LONGEST: usize = 3 * Self::MOST_LIFTS + Self::MOST_ROUNDS + 1;
    // The length of a table by round, from round 0 up.
    pub const TABLE: usize = Self::MOST_ROUNDS + 1;

    // How many payloads there are, and how many measures.
    const PAYLOADS: u32 = 0x1000_0000;

    pub const MEASURES: u32 = 0x20_0000;

    // How many round numbers a place may have: 0, and those from 1 up.
    pub const ROUNDS: u32 = Self::TABLE as u32;

    // The kinds.
    pub const LIFT: u32 = 1;

    pub const OLD: u32 = 2;

    pub const NEW: u32 = 3;

    pub const HELD: u32 = 4;

    pub const END: u32 = 15;

    // The only held word of a legible sheet.
    pub const HELD_WORD: u32 = Self::HELD * Self::PAYLOADS;

    // A word's kind.
    pub fn kind(word: u32) -> u32
        ensures { result ≡ kind_of word }
    {
        word / Self::PAYLOADS
    }

    // A word's payload.
    pub fn payload(word: u32) -> u32
        ensures { result ≡ payload_of word }
    {
        word % Self::PAYLOADS
    }

    // The round of a place.
    pub fn round(word: u32) -> usize
        ensures { result ≡ (place_of word).round }
    {
        (Self::payload(word) / Self::MEASURES) as usize
    }

    // The measure of a place.
    pub fn measure(word: u32) -> u64
        ensures { result ≡ (place_of word).measure }
    {
        (Self::payload(word) % Self::MEASURES) as u64
    }

    // The word of a kind and a payload.
    pub fn word(kind: u32, payload: u32) -> u32
        requires kind_bound { kind < 16 }
        requires payload_bound { payload < 2 ^ 28 }
        ensures { result ≡ word_of kind payload }
    {
        kind * Self::PAYLOADS + payload
    }

    // The payload of a round and a measure.
    pub fn place(round: u32, measure: u32) -> u32
        requires round_bound { round < 2 ^ 7 }
        requires measure_bound { measure < 2 ^ 21 }
        ensures { result ≡ round * 2 ^ 21 + measure }
    {
        round * Self::MEASURES + measure
    }
}

// A lift read from its words: its number, old round and measure, new round and the new measure that counts, and whether it is held.
#[derive(Clone, Copy)]
pub struct Entry {
    pub number: u32,
    pub from: usize,
    pub old: u64,
    pub to: usize,
    pub new: u64,
    pub held: bool,
}

// The words of a legible sheet.
#[derive(Clone, Copy)]
pub struct LegibleSheet<'a> {
    pub words: &'a [u32],
    pub ghost legible: { Legible words.now },
}
