// The words of a sheet read one by one, up to the first faulty one.
ghost use Rattle.std.specs.Prelude.{◌≡◌, List, ℕ, ◌+◌, true, false, ◌≤◌, ◌<◌, eqb, length, IfOk};
ghost use Rattle.sheet.specs.Sheet.{largest_sum, longest, kind as kind_of, new_kind, place_of};
ghost use Rattle.sheet.specs.Reading.{next_state as next_of, misplaced as misplaced_of, fault, reading, of_words, reading_of};
ghost use Rattle.scan.specs.Scan.{state_of, Kept};

use crate::faults::{State, follows, misplaced};
use reply::Refusal;
use sheet::{LegibleSheet, Sheet};

// Whether a word is of a kind and holds a place whose measure is counted: of a round from 1 to 100, or round 0 with measure 0.
fn is_counted_place(kind: u32, word: u32) -> bool
    requires { kind < 16 }
    ensures { result ≡ true → (kind_of word ≡ kind) × (misplaced_of word ≡ false) × ((place_of word).measure ≤ largest_sum) }
{
    if Sheet::measure(word) > Sheet::LARGEST_SUM {
        return false;
    }
    let none = Sheet::word(kind, 0);
    if none < word {
        if word < none + Sheet::MEASURES {
            return false;
        }
    }
    none <= word && word < none + Sheet::ROUNDS * Sheet::MEASURES
}

// Whether a word is a sound new place, counted or not, of a lift with this old place in a round from 1 up.
fn is_returning_place(old: u32, new: u32) -> bool
    ensures { result ≡ true → (kind_of new ≡ new_kind) × (misplaced_of new ≡ false) × (eqb (place_of old).round 0 ≡ false) }
{
    Sheet::kind(new) == Sheet::NEW && !misplaced(new) && Sheet::round(old) != 0
}

// Whether three words are the lift, the old place and the new place of a lift, and none of them meets a refusal.
fn is_sound_lift(s: State, lift: u32, old: u32, new: u32) -> bool
    ensures { result ≡ true → (fault (state_of s) lift ≡ 0) × (fault (next_of (state_of s) lift) old ≡ 0) × (fault (next_of (next_of (state_of s) lift) old) new ≡ 0) }
{
    if !follows(s.kind, Sheet::LIFT) {
        return false;
    }
    if Sheet::kind(lift) != Sheet::LIFT {
        return false;
    }
    if Sheet::payload(lift) <= s.number {
        return false;
    }
    if !is_counted_place(Sheet::OLD, old) {
        return false;
    }
    is_counted_place(Sheet::NEW, new) || is_returning_place(old, new)
}

// The state and the words left behind the sound lifts that words begin with, three words a turn.
#[tactic(auto, using(crate::proofs::Readings::turns))]
fn pass_lifts<'a>(mut s: State, mut rest: &'a [u32]) -> (State, &'a [u32])
    requires few { s.lifts + length rest.now ≤ longest }
    ensures shorter { length result.1.now ≤ length rest.now }
    ensures kept { (ws : List ℕ) → Kept ws (state_of s) rest.now → Kept ws (state_of result.0) result.1.now }
{
    while let [lift, old, new, others @ ..] = rest {
        if !is_sound_lift(s, *lift, *old, *new) {
            break;
        }
        s = s.next(*lift).next(*old).next(*new);
        rest = others;
    }
    (s, rest)
}

// The first faulty word of words that are not too many: sound lifts are passed over, other words judged one by one.
#[tactic(auto, using(crate::proofs::Readings::turns))]
fn read_words(sheet: &[u32]) -> Result<(), Refusal>
    requires { length sheet.now ≤ longest }
    ensures { reading_of result ≡ reading sheet.now }
{
    let mut s = State::default();
    let mut rest = sheet;
    loop {
        (s, rest) = pass_lifts(s, rest);
        let [word, others @ ..] = rest else {
            break;
        };
        s.judge(*word, sheet.len() - rest.len())?;
        s = s.next(*word);
        rest = others;
    }
    if s.kind == Sheet::END {
        return Ok(());
    }
    Err(Refusal::Sequence(sheet.len()))
}

// The legible sheet of words, or the first of the refusals 1 to 6 and 16 that applies to them.
pub fn read(words: &[u32]) -> Result<LegibleSheet<'_>, Refusal>
    ensures reading { reading_of result ≡ of_words words.now }
    ensures same { IfOk result (λ s. s.words ≡ words.entry) }
{
    let n = words.len();
    if n == 0 || Sheet::LONGEST < n {
        return Err(Refusal::Length(n));
    }
    read_words(words)?;
    Ok(LegibleSheet { words })
}
