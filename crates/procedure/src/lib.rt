// The fourth procedure of document 002 for one round, with Keyfitz's update: which of its lifts is to carry the recorder, from random words.
#![tactic(auto)]

ghost use Rattle.std.specs.Prelude.{◌≡◌, cond, map, ◌≤◌, ◌<◌, ltb, length};
ghost use Rattle.probability.specs.Plan.{done, draw as draw_of};
ghost use Rattle.draw.specs.Draw.{largest, reached};
ghost use Rattle.draw.specs.Run.{run, answer};
ghost use Rattle.round.specs.Round.{growth, G};
ghost use Rattle.round.specs.Choice.{draw_place, preliminary_by, keyfitz, is_held, outcome as outcome_of, selected};
ghost use Rattle.round.specs.Rows.{row_lifts, initials, Callable};
ghost use Rattle.round.proofs.Laws.{callable_prop};
ghost use Rattle.weights.specs.Scaling.{HasSums, weights_by, Balanced};
ghost use Rattle.procedure.specs.Preliminary.{proposed, Contested};

use draw::Reader;
use round::{Donors, Held, Outcome, Selection};
use weights::{Scale, Sums, WeighedRound};

// A round that a choice is made in: its rows, its donors, where their held lifts are, and its sums.
#[derive(Clone, Copy)]
pub struct Round<'a> {
    pub rows: &'a [u32],
    pub donors: Donors,
    pub held: Held,
    pub sums: Sums,
    pub ghost callable: { Callable donors (row_lifts rows.now) held } by { callable_prop donors (row_lifts rows.now) held },
    pub ghost has_sums: { HasSums donors (row_lifts rows.now) sums },
}

// Whether the lift at a place is one of the held lifts.
pub fn is_held(held: Held, place: usize) -> bool
    ensures { result ≡ is_held (initials held) place }
{
    held.first == Some(place) || held.second == Some(place)
}

// The document's number of the outcome of a choice.
#[tactic(auto, unfolding(round::specs::Choice::outcome))]
pub fn outcome(held: bool, dropped: bool) -> u32
    ensures { result ≡ outcome_of held dropped }
{
    let outcome = match (held, dropped) {
        (true, _) => Outcome::Held,
        (false, true) => Outcome::Replacement,
        (false, false) => Outcome::Fresh,
    };
    outcome as u32
}

// A draw below the sum of the growths picks the lift in whose interval it falls.
fn draw_lift(round: &WeighedRound, dropped: bool, words: &mut Reader) -> Option<Selection>
    requires { 1 ≤ G (weights_by round.now.scale round.now.rows.now) }
    ensures value { let ws = weights_by round.now.scale round.now.rows.now in reached result words.new.at ≡ answer (run largest words.old.words.now words.old.at (draw_place (G ws) (map growth ws) dropped)) }
    ensures list { words.new.words ≡ words.old.words }
{
    let q = words.draw(round.growth_sum())?;
    let place = round.pick(q);
    Some(Selection { place, dropped })
}

// Keyfitz's update of the preliminary lift at a place.
fn update(round: &WeighedRound, place: usize, words: &mut Reader) -> Option<Selection>
    requires balanced { Balanced round.now.scale (row_lifts round.now.rows.now) }
    requires place_in_bounds { place < length (row_lifts round.now.rows.now) }
    ensures value { reached result words.new.at ≡ answer (run largest words.old.words.now words.old.at (keyfitz (weights_by round.now.scale round.now.rows.now) place)) }
    ensures list { words.new.words ≡ words.old.words }
{
    let stays = Selection {
        place,
        dropped: false,
    };
    let weight = round.weight_at(place);
    if weight.old <= weight.new {
        return Some(stays);
    }
    let r = words.draw(weight.old)?;
    if r < weight.new {
        return Some(stays);
    }
    draw_lift(round, true, words)
}

// One of two held lifts, by a draw.
fn draw_between(s: Scale, i: usize, j: usize, words: &mut Reader) -> Option<usize>
    requires { 1 ≤ s.new }
    ensures value { reached result words.new.at ≡ answer (run largest words.old.words.now words.old.at (draw_of s.new (λ v. cond (ltb v s.odds) (done i) (done j)))) }
    ensures list { words.new.words ≡ words.old.words }
{
    let v = words.draw(s.new)?;
    Some(if v < s.odds { i } else { j })
}

// The preliminary lift, if there is one, from the held lifts: of two here, a draw says which.
fn find_preliminary(s: Scale, held: Held, words: &mut Reader) -> Option<Option<usize>>
    requires { Contested s.new held.first held.second }
    ensures value { reached result words.new.at ≡ proposed words.old.words.now words.old.at (preliminary_by s.new s.odds (initials held)) }
    ensures list { words.new.words ≡ words.old.words }
{
    match (held.first, held.second) {
        (Some(i), Some(j)) => Some(Some(draw_between(s, i, j, words)?)),
        (Some(i), None) => Some(Some(i)),
        (None, second) => Some(second),
    }
}

// The choice of a round, from the random words from where the reader stands.
pub fn select(round: &Round, words: &mut Reader) -> Option<Selection>
    ensures value { reached result words.new.at ≡ selected round.now.donors (row_lifts round.now.rows.now) (initials round.now.held) words.old.words.now words.old.at }
    ensures list { words.new.words ≡ words.old.words }
{
    let rows = round.rows;
    let scale = round.sums.scaling(round.donors);
    match find_preliminary(scale, round.held, words)? {
        None => {
            let whole = WeighedRound {
                scale: Scale::WHOLLY,
                rows,
            };
            draw_lift(&whole, false, words)
        }
        Some(place) => {
            let weighed = WeighedRound { scale, rows };
            update(&weighed, place, words)
        }
    }
}
