// The output: two words for each lift chosen.
ghost use Rattle.std.specs.Prelude.{◌≡◌, ◌≤◌, length};
ghost use Rattle.sheet.specs.Sheet.{most_rounds};
ghost use Rattle.selection.specs.Choice.{pair};
ghost use Rattle.panel.specs.Writing.{PairFits, PairsFit, with_pairs};

use selection::{Pick, Picks};
use sheet::Sheet;

// The kinds of a choice's two words: its round and outcome, and the number of its lift.
const CHOICE: u32 = 5;

const CHOSEN: u32 = 6;

// Writes the two words of a round's choice to its part of the output.
fn write_pair(part: &mut [u32], round: usize, pick: Pick)
    requires part_len { length part.old ≡ 2 }
    requires round_bound { round ≤ most_rounds }
    requires pick_fits { PairFits pick }
    ensures { part.new ≡ pair round pick.number pick.outcome }
{
    part[0] = Sheet::word(CHOICE, Sheet::place(round as u32, pick.outcome));
    part[1] = Sheet::word(CHOSEN, pick.number);
}

// Writes the lifts chosen, each round's pair to its own part of the output.
pub fn write_pairs(picks: &Picks, out: &mut [u32])
    requires { PairsFit picks.now (length out.old) }
    ensures { out.new ≡ with_pairs picks.now out.old }
{
    let mut start = 0;
    for (round, pick) in picks.iter().enumerate() {
        if let Some(pick) = *pick {
            let end = start + 2;
            write_pair(&mut out[start..end], round, pick);
            start = end;
        }
    }
}
