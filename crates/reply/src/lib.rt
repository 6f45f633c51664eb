// What a call answers: every refusal with its number and place, and the reply ("The reply", "Refused because of the sheet" and "Refused
// because of what was lent" of document 01, with those of document 02).
#![tactic(auto)]

ghost use Rattle.std.specs.Prelude.{◌≡◌};
ghost use Rattle.reply.specs.Refusal.{refusal_of, reply_of};

// Why a call is refused, with the place that the document gives; in the order of the document's numbers.
#[derive(Clone, Copy)]
pub enum Refusal {
    // The sheet's length.
    Length(usize),
    // A kind out of sequence, at a word.
    Sequence(usize),
    // A lift number, at a word.
    Number(usize),
    // A round or a measure, at a word.
    Place(usize),
    // The end count, at a word.
    Count(usize),
    // A held word.
    Mark(usize),
    // An old round without exactly one held lift.
    NotOneHeld(usize),
    // A round whose sum is too large.
    Oversize(usize),
    // A new round whose sum is 0.
    ZeroSum(usize),
    // A new round with too many donors.
    TooManyDonors(usize),
    // The start position.
    Start(usize),
    // An output too short: the words needed.
    Output(usize),
    // The random words ended, in a new round.
    Words(usize),
    // A line of another form.
    Form(usize),
    // A line whose lift is absent or had a line already.
    Lift(usize),
    // A newcomer that was not counted, at a word.
    Uncounted(usize),
    // A lent sheet too short for the next quarter: the words needed.
    Next(usize),
}

impl Refusal {
    // The document's number.
    pub fn number(self) -> u32
        ensures { result ≡ (refusal_of self).number }
    {
        match self {
            Refusal::Length(_) => 1,
            Refusal::Sequence(_) => 2,
            Refusal::Number(_) => 3,
            Refusal::Place(_) => 4,
            Refusal::Count(_) => 5,
            Refusal::Mark(_) => 6,
            Refusal::NotOneHeld(_) => 7,
            Refusal::Oversize(_) => 8,
            Refusal::ZeroSum(_) => 9,
            Refusal::TooManyDonors(_) => 10,
            Refusal::Start(_) => 11,
            Refusal::Output(_) => 12,
            Refusal::Words(_) => 13,
            Refusal::Form(_) => 14,
            Refusal::Lift(_) => 15,
            Refusal::Uncounted(_) => 16,
            Refusal::Next(_) => 17,
        }
    }

    // The place that the document gives with it.
    pub fn place(self) -> usize
        ensures { result ≡ (refusal_of self).place }
    {
        match self {
            Refusal::Length(place)
            | Refusal::Sequence(place)
            | Refusal::Number(place)
            | Refusal::Place(place)
            | Refusal::Count(place)
            | Refusal::Mark(place)
            | Refusal::NotOneHeld(place)
            | Refusal::Oversize(place)
            | Refusal::ZeroSum(place)
            | Refusal::TooManyDonors(place)
            | Refusal::Start(place)
            | Refusal::Output(place)
            | Refusal::Words(place)
            | Refusal::Form(place)
            | Refusal::Lift(place)
            | Refusal::Uncounted(place)
            | Refusal::Next(place) => place,
        }
    }
}

// What a call did that was not refused: how many choices it made or lines it took, and how many random words it read.
#[derive(Clone, Copy)]
pub struct Done {
    pub many: usize,
    pub words: usize,
}

// A call's reply: its number, a place or a count, and how many random words it read.
#[derive(Clone, Copy)]
pub struct Reply {
    pub number: u32,
    pub second: usize,
    pub third: usize,
}

impl From<Result<Done, Refusal>> for Reply {
    ghost from_gives = { λ answer reply. reply ≡ reply_of answer };

    fn from(answer: Result<Done, Refusal>) -> Reply {
        match answer {
            Ok(done) => Reply {
                number: 0,
                second: done.many,
                third: done.words,
            },
            Err(refusal) => Reply {
                number: refusal.number(),
                second: refusal.place(),
                third: 0,
            },
        }
    }
}
