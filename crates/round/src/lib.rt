// One round ("One round" of document 01): the types of its donors, held lifts, lifts and choice. A round is lent as rows in lift order, one
// for each lift, of four numbers: one that is the caller's, donor (1 or 2, 0 for none), old measure and new measure.
#![tactic(auto)]

// The donors of a round, with their whole old sums T.
#[derive(Clone, Copy)]
pub enum Donors {
    None,
    One(u64),
    Two(u64, u64),
}

// The places in the round of the held lifts of donor 1 and donor 2; none for a lift that is elsewhere, or a donor that there is not.
#[derive(Clone, Copy)]
pub struct Held {
    pub first: Option<usize>,
    pub second: Option<usize>,
}

// The place of the chosen lift in the round, and whether a preliminary lift was dropped for it.
#[derive(Clone, Copy)]
pub struct Selection {
    pub place: usize,
    pub dropped: bool,
}

// The outcomes of a choice, with the document's numbers: a held lift; another in the place of a dropped one; or a fresh one.
#[derive(Clone, Copy)]
pub enum Outcome {
    Held = 1,
    Replacement = 2,
    Fresh = 3,
}

// A lift of the round: "m and b are a lift's old and new measures"; the donor that it comes from is 1 or 2, or 0 for none.
#[derive(Clone, Copy)]
pub struct Lift {
    pub old: u64,
    pub donor: u32,
    pub new: u64,
}

impl Lift {
    // How many numbers the row of a lift has: one that is the caller's, its donor, its old measure and its new one.
    pub const ROW: usize = 4;
}

impl From<[u32; Lift::ROW]> for Lift {
    ghost use Rattle.std.specs.Prelude.{◌≡◌};
    ghost use Rattle.round.specs.Rows.{row_lift};

    ghost from_gives = { λ row l. l ≡ row_lift row };

    fn from(row: [u32; Lift::ROW]) -> Lift {
        let [_, donor, old, new] = row;
        Lift {
            old: u64::from(old),
            donor,
            new: u64::from(new),
        }
    }
}

// The old and the new weight of a unit.
#[derive(Clone, Copy)]
pub struct Weight {
    pub old: u64,
    pub new: u64,
}

impl Weight {
    ghost use Rattle.std.specs.Prelude.{◌≡◌};
    ghost use Rattle.round.specs.Round.{growth};

    // The growth where it is above zero, else 0.
    pub fn growth(self) -> u64
        ensures { result ≡ growth self }
    {
        self.new.saturating_sub(self.old)
    }
}
