// The choices of all new rounds of a fitting sheet, round by round ("One round" of document 01, for each of them).
#![tactic(auto)]

ghost use Rattle.std.specs.Prelude.{◌≡◌, IfSome, [], map, ◌*◌, ◌≤◌, ◌<◌, length, get_or};
ghost use Rattle.draw.specs.Draw.{reached};
ghost use Rattle.probability.specs.Pieces.{pieces};
ghost use Rattle.round.specs.Choice.{Update, keyfitz, selected_by};
ghost use Rattle.round.specs.Rows.{row_length, row_lifts as lifts_of_rows, initial_of, initials};
ghost use Rattle.sheet.specs.Sheet.{most_rounds, lifts as lifts_of_sheet};
ghost use Rattle.selection.specs.Choice.{with_sums, by_update, panel as panel_of};
ghost use Rattle.picks.specs.Choosing.{donors_at, old_sum, initial_by, initials_at, picked_at, picks_of, Behind};

use draw::Reader;
use procedure::Round;
use reply::Refusal;
use round::{Donors, Held, Lift, Selection};
use rows::LaidRound;
use selection::{Pick, Picks};
use sheet::Sheet;
use tally::{FittingSheet, OldRound};
use weights::Sums;

// A way of choosing in a round.
pub trait Way {
    // The update that it makes of the preliminary lift.
    ghost update: { Update };

    // The choice of a round.
    fn select(&self, round: &Round<'_>, words: &mut Reader<'_>) -> Option<Selection>
        ensures value { reached result words.new.at ≡ selected_by update round.now.donors (lifts_of_rows round.now.rows.now) (initials round.now.held) words.old.words.now words.old.at }
        ensures list { words.new.words ≡ words.old.words };
}

// The fourth procedure of document 002.
#[derive(Clone, Copy)]
pub struct Fourth;

impl Way for Fourth {
    ghost update = { keyfitz };

    fn select(&self, round: &Round<'_>, words: &mut Reader<'_>) -> Option<Selection> {
        procedure::select(round, words)
    }
}

// ---- one round

// The donors of a round with their old sums.
fn donors_of(round: &LaidRound, old: &[OldRound; Sheet::TABLE]) -> Donors
    requires first_named { IfSome round.now.first (λ u. u ≤ most_rounds) }
    requires second_named { IfSome round.now.second (λ u. u ≤ most_rounds) }
    ensures { result ≡ with_sums (map (old_sum old.now) (donors_at round.now)) }
{
    match (round.first, round.second) {
        (None, _) => Donors::None,
        (Some(first), None) => Donors::One(old[first].sum),
        (Some(first), Some(second)) => Donors::Two(old[first].sum, old[second].sum),
    }
}

// The place in a round of a donor's held lift, from the rows of the held lifts; none if it is elsewhere or there is no such donor.
fn held_place(
    round: &LaidRound,
    seats: &[Option<usize>; Sheet::TABLE],
    donor: Option<usize>,
) -> Option<usize>
    requires { IfSome donor (λ t. t ≤ most_rounds) }
    ensures { initial_of result ≡ initial_by round.now seats.now donor }
{
    let row = seats[donor?]?;
    if row < round.begin || round.end <= row {
        return None;
    }
    Some(row - round.begin)
}

// The places of the held lifts of its two donors.
fn held_of(round: &LaidRound, seats: &[Option<usize>; Sheet::TABLE]) -> Held
    requires first_named { IfSome round.now.first (λ u. u ≤ most_rounds) }
    requires second_named { IfSome round.now.second (λ u. u ≤ most_rounds) }
    ensures { initials result ≡ initials_at round.now seats.now }
{
    Held {
        first: held_place(round, seats, round.first),
        second: held_place(round, seats, round.second),
    }
}

// The sums of a round: that of its new measures, and what each of its donors sent it.
fn sums_of(round: &LaidRound, new: u64) -> Sums
    ensures { result ≡ record { new = new; first = get_or round.now.sent 1 0; second = get_or round.now.sent 2 0 } }
{
    Sums {
        new,
        first: round.sent[1],
        second: round.sent[2],
    }
}

// The first number of the row at a place of a round, 0 beyond the last: the lift's number with its mark.
fn mark_at(rows: &[u32], place: usize) -> u32
    ensures { result ≡ get_or (get_or (pieces row_length rows.now) place []) 0 0 }
{
    match rows.as_chunks::<{ Lift::ROW }>().0.get(place) {
        Some(row) => row[0],
        None => 0,
    }
}

// The lift chosen in a round: the outcome goes by its own mark.
fn choose_lift<W: Way>(way: &W, round: &Round<'_>, words: &mut Reader<'_>) -> Option<Pick>
    ensures value { reached result words.new.at ≡ picked_at round.now.rows.now (selected_by W.update round.now.donors (lifts_of_rows round.now.rows.now) (initials round.now.held) words.old.words.now words.old.at) }
    ensures list { words.new.words ≡ words.old.words }
{
    let selection = way.select(round, words)?;
    let mark = mark_at(round.rows, selection.place);
    let held = Sheet::kind(mark) == Sheet::HELD;
    Some(Pick {
        number: Sheet::payload(mark),
        outcome: procedure::outcome(held, selection.dropped),
    })
}

// ---- all rounds

// The lifts chosen for a fitting sheet by a way; its lifts are laid out in the rows lent.
fn select_rounds<W: Way>(
    way: &W,
    fitting: &FittingSheet<'_>,
    rows: &mut [u32],
    words: &mut Reader<'_>,
) -> Result<Picks, Refusal>
    requires { length rows.old ≡ row_length * length (lifts_of_sheet fitting.now.sheet.words.now) }
    ensures picked { result ≡ picks_of (panel_of (by_update W.update) (lifts_of_sheet fitting.now.sheet.words.now) words.old.words.now words.old.at) }
    ensures behind { Behind (panel_of (by_update W.update) (lifts_of_sheet fitting.now.sheet.words.now) words.old.words.now words.old.at) words.new.at }
    ensures list { words.new.words ≡ words.old.words }
{
    let t = &fitting.tallies;
    let layout = rows::lay_out(fitting, rows);
    let mut picks = [None; Sheet::TABLE];
    for r in 1..Sheet::TABLE {
        let laid = layout.rounds[r];
        let part = &rows[Lift::ROW * laid.begin..Lift::ROW * laid.end];
        if !part.is_empty() {
            let round = Round {
                rows: part,
                donors: donors_of(&laid, &t.old),
                held: held_of(&laid, &layout.seats),
                sums: sums_of(&laid, t.new[r].sum),
            };
            let Some(pick) = choose_lift(way, &round, words) else {
                return Err(Refusal::Words(r));
            };
            picks[r] = Some(pick);
        }
    }
    Ok(picks)
}

// The same, with rows of its own.
pub fn select_all<W: Way>(
    way: &W,
    fitting: &FittingSheet<'_>,
    words: &mut Reader<'_>,
) -> Result<Picks, Refusal>
    ensures picked { result ≡ picks_of (panel_of (by_update W.update) (lifts_of_sheet fitting.now.sheet.words.now) words.old.words.now words.old.at) }
    ensures behind { Behind (panel_of (by_update W.update) (lifts_of_sheet fitting.now.sheet.words.now) words.old.words.now words.old.at) words.new.at }
    ensures list { words.new.words ≡ words.old.words }
{
    let mut rows = [0u32; Lift::ROW * Sheet::MOST_LIFTS];
    let end = Lift::ROW * fitting.counts.lifts;
    select_rounds(way, fitting, &mut rows[..end], words)
}
