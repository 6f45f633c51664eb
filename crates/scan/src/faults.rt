// The refusals that a word meets, after the words before it: 2 to 6, and 16.
ghost use Rattle.std.specs.Prelude.{◌≡◌, ◌≤◌};
ghost use Rattle.sheet.specs.Sheet.{longest};
ghost use Rattle.sheet.specs.Reading.{next_state as next_of, may_follow as follows_of, misnumbered as misnumbered_of, is_place, too_large as too_large_of, beyond as beyond_of, misplaced as misplaced_of, uncounted_newcomer as uncounted_newcomer_of, miscounted as miscounted_of, mismarked as mismarked_of, fault, unless_fault, sound, reading_of};
ghost use Rattle.scan.specs.Scan.{state_of};

use reply::Refusal;
use sheet::Sheet;

// Whether a kind may follow another.
pub fn follows(before: u32, kind: u32) -> bool
    ensures { result ≡ follows_of before kind }
{
    match before {
        Sheet::LIFT => kind == Sheet::OLD,
        Sheet::OLD => kind == Sheet::NEW,
        Sheet::END => false,
        _ => {
            kind == Sheet::LIFT || kind == Sheet::END || before == Sheet::NEW && kind == Sheet::HELD
        }
    }
}

// Whether a word of a kind holds a place.
fn is_place(kind: u32) -> bool
    ensures { result ≡ is_place kind }
{
    matches!(kind, Sheet::OLD | Sheet::NEW)
}

// Whether a measure is too large in a word of a kind.
fn too_large(kind: u32, measure: u64) -> bool
    ensures { result ≡ too_large_of kind measure }
{
    measure > Sheet::LARGEST_SUM && (kind != Sheet::NEW || measure != Sheet::NOT_COUNTED)
}

// Whether refusal 4 meets a round and a measure in a word of a kind.
fn beyond(kind: u32, round: usize, measure: u64) -> bool
    ensures { result ≡ beyond_of kind round measure }
{
    round > Sheet::MOST_ROUNDS || too_large(kind, measure) || round == 0 && measure != 0
}

// Whether refusal 4 applies to a word.
pub fn misplaced(word: u32) -> bool
    ensures { result ≡ misplaced_of word }
{
    let kind = Sheet::kind(word);
    is_place(kind) && beyond(kind, Sheet::round(word), Sheet::measure(word))
}

// The state of the scan: the kind of the last word, 0 before the first, the number of the last lift, the word of its old place, and
// how many lifts there are.
#[derive(Clone, Copy, Default)]
pub struct State {
    pub kind: u32,
    pub number: u32,
    pub old: u32,
    pub lifts: usize,
}

impl State {
    // Whether refusal 3 applies to a word.
    fn misnumbered(self, word: u32) -> bool
        ensures { result ≡ misnumbered_of (state_of self) word }
    {
        let payload = Sheet::payload(word);
        Sheet::kind(word) == Sheet::LIFT && (payload == 0 || payload <= self.number)
    }

    // Whether refusal 16 applies to a word.
    fn uncounted_newcomer(self, word: u32) -> bool
        ensures { result ≡ uncounted_newcomer_of (state_of self) word }
    {
        Sheet::kind(word) == Sheet::NEW
            && (Sheet::round(self.old) == 0 && Sheet::measure(word) == Sheet::NOT_COUNTED)
    }

    // Whether refusal 5 applies to a word.
    fn miscounted(self, word: u32) -> bool
        ensures { result ≡ miscounted_of (state_of self) word }
    {
        let payload = Sheet::payload(word) as usize;
        Sheet::kind(word) == Sheet::END && (payload != self.lifts || payload > Sheet::MOST_LIFTS)
    }

    // Whether refusal 6 applies to a word.
    fn mismarked(self, word: u32) -> bool
        ensures { result ≡ mismarked_of (state_of self) word }
    {
        Sheet::kind(word) == Sheet::HELD
            && (Sheet::payload(word) != 0 || Sheet::measure(self.old) == 0)
    }

    // The refusal that a word at position i meets.
    #[tactic(auto, unfolding(sheet::specs::Reading::fault))]
    pub fn judge(self, word: u32, i: usize) -> Result<(), Refusal>
        ensures { reading_of result ≡ unless_fault (fault (state_of self) word) i sound }
    {
        if !follows(self.kind, Sheet::kind(word)) {
            return Err(Refusal::Sequence(i));
        }
        if self.misnumbered(word) {
            return Err(Refusal::Number(i));
        }
        if misplaced(word) {
            return Err(Refusal::Place(i));
        }
        if self.uncounted_newcomer(word) {
            return Err(Refusal::Uncounted(i));
        }
        if self.miscounted(word) {
            return Err(Refusal::Count(i));
        }
        if self.mismarked(word) {
            return Err(Refusal::Mark(i));
        }
        Ok(())
    }

    // The state of the scan after one more word.
    pub fn next(self, word: u32) -> State
        requires { self.lifts ≤ longest }
        ensures { state_of result ≡ next_of (state_of self) word }
    {
        let kind = Sheet::kind(word);
        match kind {
            Sheet::LIFT => State {
                kind,
                number: Sheet::payload(word),
                lifts: self.lifts + 1,
                ..self
            },
            Sheet::OLD => State {
                kind,
                old: word,
                ..self
            },
            _ => State { kind, ..self },
        }
    }
}
