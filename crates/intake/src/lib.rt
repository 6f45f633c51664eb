// The monitoring centre's counts taken into a sheet (Card 1 of document 02).
#![tactic(auto)]

ghost use Rattle.std.specs.Prelude.{◌≡◌, ◌≤◌, length, All, IfSome};
ghost use Rattle.reply.specs.Refusal.{reply_of};
ghost use Rattle.sheet.specs.Sheet.{largest_sum, new_kind, place_of, place_word, lifts};
ghost use Rattle.sheet.specs.Reading.{Legible};
ghost use Rattle.counts.specs.Counts.{numbers_of, counts_reply, counts_output};
ghost use Rattle.counts.specs.Law.{Takes};
ghost use Rattle.intake.specs.Positions.{sheet_with};

use reply::{Done, Refusal};
use sheet::{LegibleSheet, Sheet};

mod lines;
mod text;

// The numbers of a sheet's lifts.
fn number_lifts(sheet: LegibleSheet<'_>, numbers: &mut [u32])
    requires numbers_len { length numbers.old ≡ length (lifts sheet.words.now) }
    ensures { numbers.new ≡ numbers_of (lifts sheet.entry.words.now) }
{
    for (k, lift) in scan::lifts(sheet).enumerate() {
        numbers[k] = lift.number;
    }
}

// A new place's word with another measure.
fn renew(word: u32, measure: u32) -> u32
    requires { measure ≤ largest_sum }
    ensures { result ≡ place_word new_kind (record { round = (place_of word).round; measure = measure }) }
{
    let round = Sheet::round(word) as u32;
    Sheet::word(Sheet::NEW, Sheet::place(round, measure))
}

// New measures put into a sheet's words, for each lift in its place, if there is one.
fn put(measures: &[Option<u32>], words: &mut [u32])
    requires legible { Legible words.old }
    requires measures_len { length measures.now ≡ length (lifts words.old) }
    requires small { All (λ o. IfSome o (λ m. m ≤ largest_sum)) measures.now }
    ensures { words.new ≡ sheet_with words.old measures.now }
{
    let mut i = 0;
    for measure in measures {
        let held = scan::marks(words, i);
        if let Some(measure) = *measure {
            words[i + 2] = renew(words[i + 2], measure);
        }
        i += 3 + held;
    }
}

// The counts of a text taken into a sheet: the reply, and the sheet at the end; a refusal writes nothing.
pub fn take(sheet: &mut [u32], text: &[u8]) -> Result<Done, Refusal>
    ensures replied { reply_of result ≡ counts_reply sheet.old text.now }
    ensures written { sheet.new ≡ counts_output sheet.old text.now }
    ensures taken { Takes sheet.old text.now }
{
    let lent = scan::read(sheet)?;
    let n = scan::size(lent);
    let mut numbers = [0; Sheet::MOST_LIFTS];
    let numbers = &mut numbers[..n];
    let mut measures = [None; Sheet::MOST_LIFTS];
    let measures = &mut measures[..n];
    let mut words = [0; Sheet::LONGEST];
    let words = &mut words[..lent.words.len()];
    number_lifts(lent, numbers);
    let many = lines::gather(text, numbers, measures)?;
    words.copy_from_slice(sheet);
    put(measures, words);
    survey::check(words)?;
    sheet.copy_from_slice(words);
    Ok(Done { many, words: 0 })
}
