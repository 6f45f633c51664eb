// The lift in whose cumulative interval a position falls.
ghost use Rattle.std.specs.Prelude.{◌≡◌, map, ◌≤◌, length, take};
ghost use Rattle.probability.specs.Interval.{pick as pick_of};
ghost use Rattle.round.specs.Round.{growth};
ghost use Rattle.round.specs.Rows.{row_lift, row_lifts};
ghost use Rattle.weights.specs.Scaling.{scaled, weights_by, WeightsFit, block_length};

use crate::{Scale, WeighedRound, count, rows_of};
use round::Lift;

// The most lifts that are lent at a time.
const BLOCK: usize = 8;

// The place, among the lifts lent, of the one in whose interval the position q falls.
fn pick(lifts: &[Lift], s: Scale, q: u64) -> usize
    requires { WeightsFit s lifts.now }
    ensures { result ≡ pick_of (map growth (map (scaled s) lifts.now)) q }
{
    let mut left = q;
    for (i, lift) in lifts.iter().enumerate() {
        let w = s.weight(*lift).growth();
        if left < w {
            return i;
        }
        left -= w;
    }
    lifts.len()
}

// The lifts of rows, at the start of a block.
fn gathered(rows: &[[u32; Lift::ROW]]) -> [Lift; BLOCK]
    requires { length rows.now ≤ block_length }
    ensures { take (length rows.now) result ≡ map row_lift rows.now }
{
    let none = Lift {
        old: 0,
        donor: 0,
        new: 0,
    };
    let mut block = [none; BLOCK];
    for (i, row) in rows.iter().enumerate() {
        block[i] = Lift::from(*row);
    }
    block
}

// The place of the lift in whose interval the position q falls, in a round of at most a block of lifts, which are lent to `pick`.
fn pick_lent(block: &WeighedRound, q: u64) -> usize
    requires { length (row_lifts block.now.rows.now) ≤ block_length }
    ensures { result ≡ pick_of (map growth (weights_by block.now.scale block.now.rows.now)) q }
{
    let rows = rows_of(block.rows);
    let lifts = gathered(rows);
    pick(&lifts[..rows.len()], block.scale, q)
}

impl WeighedRound<'_> {
    // The place of the lift in whose interval the position q falls: its block is found by the sums of blocks, and then lent.
    pub fn pick(&self, q: u64) -> usize
        ensures { result ≡ pick_of (map growth (weights_by self.now.scale self.now.rows.now)) q }
    {
        let mut left = q;
        let mut start = 0;
        for rows in self.rows.chunks(BLOCK * Lift::ROW) {
            let block = WeighedRound {
                scale: self.scale,
                rows,
            };
            let w = block.growth_sum();
            if left < w {
                return start + pick_lent(&block, left);
            }
            left -= w;
            start += count(rows);
        }
        start
    }
}
