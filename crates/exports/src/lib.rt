// The functions that the harness calls, by the C calling convention.
#![tactic(auto)]

ghost use Rattle.std.specs.Prelude.{◌≡◌, length};
ghost use Rattle.draw.specs.Draw.{largest, draw_at};
ghost use Rattle.round.specs.Choice.{selected};
ghost use Rattle.round.specs.Rows.{row_lifts, initials, Callable};
ghost use Rattle.tally.specs.Verdict.{verdict};
ghost use Rattle.reply.specs.Reply.{numbers};
ghost use Rattle.reply.specs.Refusal.{reply_of};
ghost use Rattle.counts.specs.Counts.{counts_reply, counts_output};
ghost use Rattle.selection.specs.Choice.{fourth, reply, output};
ghost use Rattle.carry.specs.Reply.{reply_next, output_next, lent_sheet};
ghost use Rattle.exports.specs.Reply.{DrawReply, donors_from, held_from, RoundReply, CheckReply};

use draw::Reader;
use procedure::Round;
use reply::{Done, Refusal, Reply};
use round::{Donors, Held};
use weights::Sums;

// `draw::Reader::draw` from position `at` on: true, the value and the next position written; or false, nothing written, where the words end.
// A bound of 0 has no value, so every word is passed over.
#[unsafe(no_mangle)]
pub extern "C" fn jengpilo_draw_below(
    words: &[u64],
    at: usize,
    bound: u64,
    value: &mut u64,
    next: &mut usize,
) -> bool
    ensures { DrawReply (draw_at largest words.now at bound) result value.old value.new next.old next.new }
{
    if bound == 0 {
        return false;
    }
    let mut reader = Reader::new(words, at);
    let Some(drawn) = reader.draw(bound) else {
        return false;
    };
    *value = drawn;
    *next = reader.at;
    true
}

// The donors, from their count and their whole old sums.
fn donors_from(count: u8, t1: u64, t2: u64) -> Donors
    ensures { result ≡ donors_from count t1 t2 }
{
    match count {
        0 => Donors::None,
        1 => Donors::One(t1),
        _ => Donors::Two(t1, t2),
    }
}

// The held lifts, from their count and their places: one alone stands for donor 1's, with which the choice is the same.
fn held_from(count: u8, i: usize, j: usize) -> Held
    ensures { result ≡ held_from count i j }
{
    let (first, second) = match count {
        0 => (None, None),
        1 => (Some(i), None),
        _ => (Some(i), Some(j)),
    };
    Held { first, second }
}

// `procedure::select`: true, the place, the outcome and the next position written; or false, nothing written, where the words end.
#[unsafe(no_mangle)]
pub extern "C" fn jengpilo_round_select(
    rows: &[u32],
    donors: u8,
    t1: u64,
    t2: u64,
    held: u8,
    i: usize,
    j: usize,
    words: &[u64],
    at: usize,
    place: &mut usize,
    outcome: &mut u32,
    next: &mut usize,
) -> bool
    requires { Callable (donors_from donors t1 t2) (row_lifts rows.now) (held_from held i j) }
    ensures { RoundReply (held_from held i j) (selected (donors_from donors t1 t2) (row_lifts rows.now) (initials (held_from held i j)) words.now at) result place.old place.new outcome.old outcome.new next.old next.new }
{
    let donors = donors_from(donors, t1, t2);
    let held = held_from(held, i, j);
    let sums = Sums::of(rows, donors);
    let round = Round {
        rows,
        donors,
        held,
        sums,
    };
    let mut reader = Reader::new(words, at);
    let Some(chosen) = procedure::select(&round, &mut reader) else {
        return false;
    };
    let was_held = procedure::is_held(held, chosen.place);
    *place = chosen.place;
    *outcome = procedure::outcome(was_held, chosen.dropped);
    *next = reader.at;
    true
}

// `survey::check`: the document's number, the place written; or 0, how many lifts and how many new rounds written.
#[unsafe(no_mangle)]
pub extern "C" fn jengpilo_sheet_check(sheet: &[u32], place: &mut usize, rounds: &mut usize) -> u32
    ensures { CheckReply (verdict sheet.now) result place.new rounds.old rounds.new }
{
    match survey::check(sheet) {
        Ok(fitting) => {
            *place = fitting.lifts;
            *rounds = fitting.rounds;
            0
        }
        Err(refusal) => {
            *place = refusal.place();
            refusal.number()
        }
    }
}

// The reply that an answer stands for: its number, the other two written.
fn write_reply(answer: Result<Done, Refusal>, second: &mut usize, third: &mut usize) -> u32
    ensures { numbers result second.new third.new ≡ reply_of answer }
{
    let reply = Reply::from(answer);
    *second = reply.second;
    *third = reply.third;
    reply.number
}

// `panel::choose`: the document's number and place, and 0 words read; or 0, how many choices and how many words were read.
#[unsafe(no_mangle)]
pub extern "C" fn jengpilo_panel_choose(
    sheet: &[u32],
    words: &[u64],
    start: usize,
    out: &mut [u32],
    second: &mut usize,
    third: &mut usize,
) -> u32
    ensures replied { numbers result second.new third.new ≡ reply fourth sheet.now words.now start (length out.old) }
    ensures written { out.new ≡ output fourth sheet.now words.now start out.old }
{
    let answer = panel::choose(sheet, words, start, out);
    write_reply(answer, second, third)
}

// `panel::choose_next`: as `jengpilo_panel_choose`, with next quarter's sheet written to `next`.
#[unsafe(no_mangle)]
pub extern "C" fn jengpilo_panel_choose_next(
    sheet: &[u32],
    words: &[u64],
    start: usize,
    out: &mut [u32],
    next: &mut [u32],
    second: &mut usize,
    third: &mut usize,
) -> u32
    ensures replied { numbers result second.new third.new ≡ reply_next sheet.now words.now start (length out.old) (length next.old) }
    ensures written { out.new ≡ output_next sheet.now words.now start out.old (length next.old) }
    ensures carried { next.new ≡ lent_sheet sheet.now words.now start (length out.old) next.old }
{
    let answer = panel::choose_next(sheet, words, start, out, next);
    write_reply(answer, second, third)
}

// `intake::take`: the document's number and place, and 0 words read; or 0, how many lines were taken, and 0.
#[unsafe(no_mangle)]
pub extern "C" fn jengpilo_counts_take(
    sheet: &mut [u32],
    text: &[u8],
    second: &mut usize,
    third: &mut usize,
) -> u32
    ensures replied { numbers result second.new third.new ≡ counts_reply sheet.old text.now }
    ensures written { sheet.new ≡ counts_output sheet.old text.now }
{
    let answer = intake::take(sheet, text);
    write_reply(answer, second, third)
}
