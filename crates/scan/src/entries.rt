// The lifts of a legible sheet, read from their words.
ghost use Rattle.std.specs.Prelude.{◌≡◌, ◌+◌, ◌<◌, length, drop};
ghost use Rattle.probability.specs.Sum.{indicator};
ghost use Rattle.sheet.specs.Sheet.{lift_of, lifts};
ghost use Rattle.sheet.specs.Lift.{filled_in as filled_in_of, MarkSound, entry_of};

use sheet::{Entry, LegibleSheet, Sheet};
use std::marker::Model;

// The new measure that counts, from both measures as written.
fn filled_in(old: u64, new: u64) -> u64
    ensures { result ≡ filled_in_of old new }
{
    if new == Sheet::NOT_COUNTED {
        return old;
    }
    new
}

// The lift at position i.
pub fn entry_at(sheet: &[u32], i: usize) -> Entry
    requires i_in_bounds { i + 3 < length sheet.now }
    requires mark_sound { MarkSound (drop i sheet.now) }
    ensures { result ≡ entry_of (lift_of (drop i sheet.now)) }
{
    let old = sheet[i + 1];
    let new = sheet[i + 2];
    let measure = Sheet::measure(old);
    Entry {
        number: Sheet::payload(sheet[i]),
        from: Sheet::round(old),
        old: measure,
        to: Sheet::round(new),
        new: filled_in(measure, Sheet::measure(new)),
        held: sheet[i + 3] == Sheet::HELD_WORD,
    }
}

// How many held words the lift at position i has.
pub fn marks(sheet: &[u32], i: usize) -> usize
    requires { i + 3 < length sheet.now }
    ensures { result ≡ indicator (lift_of (drop i sheet.now)).held }
{
    usize::from(Sheet::kind(sheet[i + 3]) == Sheet::HELD)
}

// How many lifts there are, by the end word.
pub fn size(sheet: LegibleSheet<'_>) -> usize
    ensures { result ≡ length (lifts sheet.entry.words.now) }
{
    let words = sheet.words;
    Sheet::payload(words[words.len() - 1]) as usize
}

// The words behind those of a held lift: a rare way, kept out of the loop, so that the walk goes on before it is known whether a lift is held.
#[cold]
#[inline(never)]
fn behind_held<'a>(words: &'a [u32]) -> &'a [u32]
    requires { 3 < length words.now }
    ensures { result.now ≡ drop 4 words.now }
{
    &words[4..]
}

// The words behind those of the first lift.
fn behind<'a>(words: &'a [u32], held: bool) -> &'a [u32]
    requires { 3 < length words.now }
    ensures { result.now ≡ drop (3 + indicator held) words.now }
{
    if held {
        return behind_held(words);
    }
    &words[3..]
}

// A walk over the lifts of a legible sheet, seen as the list of those that are left.
#[derive(Drop)]
pub struct Walk<'a> {
    words: &'a [u32],
}

impl<'a> Model for Walk<'a> {
    ghost use Rattle.std.specs.Prelude.{List};
    ghost use Rattle.sheet.specs.Sheet.{Lift, lifts as lifts_of};
    ghost use Rattle.sheet.specs.Law.{LiftsLeft};

    ghost Value = { List Lift };

    ghost view = { λ s. lifts_of s.words.now };

    ghost invariant = { λ s. LiftsLeft s.words.now };
}

impl<'a> Iterator for Walk<'a> {
    type Item = Entry;

    ghost use Rattle.std.specs.Iterator.{item_count};
    ghost use Rattle.scan.specs.Lifts.{GivesLift};

    ghost next_gives = { GivesLift };

    ghost remaining = { item_count (λ left. left) };

    fn next(&mut self) -> Option<Entry> {
        let words = self.words;
        if words.len() == 1 {
            return None;
        }
        let lift = entry_at(words, 0);
        self.words = behind(words, lift.held);
        Some(lift)
    }
}

// The lifts of a legible sheet.
pub fn lifts(sheet: LegibleSheet<'_>) -> Walk<'_>
    ensures { result ≡ lifts sheet.entry.words.now }
{
    Walk { words: sheet.words }
}
