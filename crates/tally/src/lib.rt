// The rounds of a sheet ("Refused because of the sheet" of document 01): the types of their tables.
#![tactic(auto)]

ghost use Rattle.std.specs.Prelude.{◌≡◌};
ghost use Rattle.sheet.specs.Sheet.{lifts};
ghost use Rattle.tally.specs.Verdict.{fits, nothing_more, verdict_by, verdict};
ghost use Rattle.tally.specs.Law.{Fitting};
ghost use Rattle.tally.specs.Tables.{Tabled};

use sheet::{LegibleSheet, Sheet};

// An old round: how many lifts it has, how many of them are held, and its sum.
#[derive(Clone, Copy)]
pub struct OldRound {
    pub lifts: u64,
    pub held: u64,
    pub sum: u64,
}

// A new round: how many lifts it has, its sum, and two words with a bit for each old round that is set if it is a donor.
#[derive(Clone, Copy)]
pub struct NewRound {
    pub lifts: u64,
    pub sum: u64,
    pub donors: [u64; 2],
}

// Tables by round.
#[derive(Clone, Copy)]
pub struct Tallies {
    pub old: [OldRound; Sheet::TABLE],
    pub new: [NewRound; Sheet::TABLE],
}

impl Tallies {
    // Of no lifts.
    pub const EMPTY: Tallies = Tallies {
        old: [OldRound {
            lifts: 0,
            held: 0,
            sum: 0,
        }; Sheet::TABLE],
        new: [NewRound {
            lifts: 0,
            sum: 0,
            donors: [0; 2],
        }; Sheet::TABLE],
    };
}

// A legible sheet to which none of the refusals 7 to 9 applies: how many lifts and new rounds it has, and its tables.
#[derive(Clone, Copy)]
pub struct Examined<'a> {
    pub sheet: LegibleSheet<'a>,
    pub counts: Sheet,
    pub tallies: Tallies,
    pub ghost judged: { fits counts.lifts counts.rounds ≡ verdict_by nothing_more sheet.words.now },
    pub ghost tabled: { Tabled (lifts sheet.words.now) tallies },
}

// A sheet that fits: how many lifts and new rounds it has, and its tables.
#[derive(Clone, Copy)]
pub struct FittingSheet<'a> {
    pub sheet: LegibleSheet<'a>,
    pub counts: Sheet,
    pub tallies: Tallies,
    pub ghost fitting: { Fitting sheet.words.now },
    pub ghost judged: { fits counts.lifts counts.rounds ≡ verdict sheet.words.now },
    pub ghost tabled: { Tabled (lifts sheet.words.now) tallies },
}
