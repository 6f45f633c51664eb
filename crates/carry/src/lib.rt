// Next quarter's sheet, written from a sheet and its choices (Card 3 of document 02).
#![tactic(auto)]

ghost use Rattle.std.specs.Prelude.{◌≡◌, ◌^◌, ◌≤◌, ◌<◌, false, length, get_or, None};
ghost use Rattle.sheet.specs.Sheet.{most_rounds, Lift, lifts as lifts_of_sheet, place_word, lift_words, sheet_of};
ghost use Rattle.sheet.specs.Lift.{entry_of};
ghost use Rattle.sheet.specs.Law.{WritablePlace};
ghost use Rattle.reply.specs.Reply.{onto};
ghost use Rattle.tally.specs.Tables.{Tabled};
ghost use Rattle.carry.specs.Next.{remaining as remaining_of, carried, carried_on, has_number, in_table};

use selection::Picks;
use sheet::{Entry, LegibleSheet, Sheet};
use tally::Tallies;

// How many of a sheet's lifts have a new round, from its tables.
pub fn remaining(sheet: LegibleSheet<'_>, tallies: &Tallies) -> usize
    requires tabled { Tabled (lifts_of_sheet sheet.words.now) tallies.now }
    ensures { result ≡ length (remaining_of (lifts_of_sheet sheet.entry.words.now)) }
{
    scan::size(sheet) - tallies.new[0].lifts as usize
}

// The word of a place.
fn place_word(kind: u32, round: usize, measure: u64) -> u32
    requires kind_bound { kind < 16 }
    requires writable { WritablePlace (record { round = round; measure = measure }) }
    ensures { result ≡ place_word kind (record { round = round; measure = measure }) }
{
    Sheet::word(kind, Sheet::place(round as u32, measure as u32))
}

// The words of a lift in the next quarter, but for the one that marks it as held.
fn next_words(l: Entry) -> [u32; 3]
    requires number_bound { l.number < 2 ^ 28 }
    requires writable { WritablePlace (record { round = l.to; measure = l.new }) }
    ensures { (lift : Lift) → l ≡ entry_of lift → result ≡ lift_words (carried (λ m. false) lift) }
{
    [
        Sheet::word(Sheet::LIFT, l.number),
        place_word(Sheet::OLD, l.to, l.new),
        place_word(Sheet::NEW, l.to, Sheet::NOT_COUNTED),
    ]
}

// Whether a lift is the one chosen in its new round.
fn is_chosen(chosen: &Picks, l: Entry) -> bool
    requires { l.to ≤ most_rounds }
    ensures { result ≡ has_number (get_or chosen.now l.to None) l.number }
{
    chosen[l.to].is_some_and(|pick| pick.number == l.number)
}

// Next quarter's sheet, written to the beginning of `next`: `chosen` has the lifts chosen by new round, and `lifts` remain.
pub fn write(sheet: LegibleSheet<'_>, chosen: &Picks, lifts: usize, next: &mut [u32])
    requires lifts_value { lifts ≡ length (remaining_of (lifts_of_sheet sheet.words.now)) }
    requires sheet_in_bounds { length (sheet_of (carried_on (in_table chosen.now) (lifts_of_sheet sheet.words.now))) ≤ length next.old }
    ensures { next.new ≡ onto (sheet_of (carried_on (in_table chosen.now) (lifts_of_sheet sheet.entry.words.now))) next.old }
{
    let mut at = 0;
    for l in scan::lifts(sheet) {
        if l.to != 0 {
            let [lift, old, new] = next_words(l);
            let words = &mut next[at..at + 3];
            words[0] = lift;
            words[1] = old;
            words[2] = new;
            at += 3;
            if is_chosen(chosen, l) {
                next[at] = Sheet::HELD_WORD;
                at += 1;
            }
        }
    }
    next[at] = Sheet::word(Sheet::END, lifts as u32);
}
