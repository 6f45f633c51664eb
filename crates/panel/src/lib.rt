// The whole choice: one lift for each new round of a sheet ("The reply" and "Refused because of what was lent" of document 01).
#![tactic(auto)]

ghost use Rattle.std.specs.Prelude.{◌≡◌, ◌≤◌, length};
ghost use Rattle.reply.specs.Reply.{unless_refused};
ghost use Rattle.reply.specs.Refusal.{reply_of, refused_or};
ghost use Rattle.reply.specs.declared.Reply.{Reply};
ghost use Rattle.sheet.specs.Sheet.{most_rounds, lifts as lifts_of_sheet};
ghost use Rattle.sheet.specs.Lift.{New};
ghost use Rattle.tally.specs.Rounds.{in_use};
ghost use Rattle.tally.specs.Law.{Fitting};
ghost use Rattle.selection.specs.Choice.{by_update, fourth, panel as panel_of, unless_lacking, of_lent, written_panel, reply, output};
ghost use Rattle.selection.specs.Fair.{Fair};
ghost use Rattle.carry.specs.Reply.{of_lent_next, reply_next, output_next, carried_to, lent_sheet};
ghost use Rattle.carry.specs.Law.{CarriesAll};

use draw::Reader;
use output::write_pairs;
use picks::{Fourth, Way, select_all};
use reply::{Done, Refusal};
use tally::FittingSheet;

mod output;

// Refused because of the start position or the output.
fn lacking(rounds: usize, words: usize, start: usize, room: usize) -> Result<(), Refusal>
    requires { rounds ≤ most_rounds }
    ensures { (otherwise : Reply) → refused_or result otherwise ≡ unless_lacking rounds words start room otherwise }
{
    if words < start {
        return Err(Refusal::Start(start));
    }
    let need = 2 * rounds;
    if room < need {
        return Err(Refusal::Output(need));
    }
    Ok(())
}

// The answer to a fitting sheet by a way, from its tables.
fn choose_fitting<W: Way>(
    way: &W,
    fitting: &FittingSheet<'_>,
    words: &[u64],
    start: usize,
    out: &mut [u32],
) -> Result<Done, Refusal>
    ensures replied { reply_of result ≡ of_lent (by_update W.update) (lifts_of_sheet fitting.now.sheet.words.now) (length (in_use New (lifts_of_sheet fitting.now.sheet.words.now))) words.now start (length out.old) }
    ensures written { out.new ≡ unless_refused (of_lent (by_update W.update) (lifts_of_sheet fitting.now.sheet.words.now) (length (in_use New (lifts_of_sheet fitting.now.sheet.words.now))) words.now start (length out.old)) out.old (written_panel (panel_of (by_update W.update) (lifts_of_sheet fitting.now.sheet.words.now) words.now start) out.old) }
{
    let rounds = fitting.counts.rounds;
    lacking(rounds, words.len(), start, out.len())?;
    let mut reader = Reader::new(words, start);
    let picks = select_all(way, fitting, &mut reader)?;
    write_pairs(&picks, out);
    Ok(Done {
        many: rounds,
        words: reader.at - start,
    })
}

// The whole choice by a way.
fn choose_by<W: Way>(
    way: &W,
    sheet: &[u32],
    words: &[u64],
    start: usize,
    out: &mut [u32],
) -> Result<Done, Refusal>
    ensures replied { reply_of result ≡ reply (by_update W.update) sheet.now words.now start (length out.old) }
    ensures written { out.new ≡ output (by_update W.update) sheet.now words.now start out.old }
{
    let fitting = survey::fitting(sheet)?;
    choose_fitting(way, &fitting, words, start, out)
}

// The whole choice by the fourth procedure: refused, with nothing written and no word used up, or one lift for each new round, written
// as pairs.
pub fn choose(sheet: &[u32], words: &[u64], start: usize, out: &mut [u32]) -> Result<Done, Refusal>
    ensures replied { reply_of result ≡ reply fourth sheet.now words.now start (length out.old) }
    ensures written { out.new ≡ output fourth sheet.now words.now start out.old }
    ensures fair { Fitting sheet.now → Fair fourth (lifts_of_sheet sheet.now) }
{
    choose_by(&Fourth, sheet, words, start, out)
}

// ---- with next quarter's sheet

// The answer to a fitting sheet, from its tables, with next quarter's sheet.
fn choose_next_fitting(
    fitting: &FittingSheet<'_>,
    words: &[u64],
    start: usize,
    out: &mut [u32],
    next: &mut [u32],
) -> Result<Done, Refusal>
    ensures replied { reply_of result ≡ of_lent_next (lifts_of_sheet fitting.now.sheet.words.now) (length (in_use New (lifts_of_sheet fitting.now.sheet.words.now))) words.now start (length out.old) (length next.old) }
    ensures written { out.new ≡ unless_refused (of_lent_next (lifts_of_sheet fitting.now.sheet.words.now) (length (in_use New (lifts_of_sheet fitting.now.sheet.words.now))) words.now start (length out.old) (length next.old)) out.old (written_panel (panel_of fourth (lifts_of_sheet fitting.now.sheet.words.now) words.now start) out.old) }
    ensures carried { next.new ≡ unless_refused (of_lent_next (lifts_of_sheet fitting.now.sheet.words.now) (length (in_use New (lifts_of_sheet fitting.now.sheet.words.now))) words.now start (length out.old) (length next.old)) next.old (carried_to (panel_of fourth (lifts_of_sheet fitting.now.sheet.words.now) words.now start) (lifts_of_sheet fitting.now.sheet.words.now) next.old) }
{
    let rounds = fitting.counts.rounds;
    lacking(rounds, words.len(), start, out.len())?;
    let lifts = carry::remaining(fitting.sheet, &fitting.tallies);
    let space = 3 * lifts + rounds + 1;
    if next.len() < space {
        return Err(Refusal::Next(space));
    }
    let mut reader = Reader::new(words, start);
    let picks = select_all(&Fourth, fitting, &mut reader)?;
    carry::write(fitting.sheet, &picks, lifts, next);
    write_pairs(&picks, out);
    Ok(Done {
        many: rounds,
        words: reader.at - start,
    })
}

// The whole choice and next quarter's sheet: refused, with nothing written and no word used up; or one lift for each new round, written
// as pairs to `out` and as held marks to `next`.
pub fn choose_next(
    sheet: &[u32],
    words: &[u64],
    start: usize,
    out: &mut [u32],
    next: &mut [u32],
) -> Result<Done, Refusal>
    ensures replied { reply_of result ≡ reply_next sheet.now words.now start (length out.old) (length next.old) }
    ensures written { out.new ≡ output_next sheet.now words.now start out.old (length next.old) }
    ensures carried { next.new ≡ lent_sheet sheet.now words.now start (length out.old) next.old }
    ensures carries { Fitting sheet.now → CarriesAll (lifts_of_sheet sheet.now) }
    ensures fair { Fitting sheet.now → Fair fourth (lifts_of_sheet sheet.now) }
{
    let fitting = survey::fitting(sheet)?;
    choose_next_fitting(&fitting, words, start, out, next)
}
