// A round with the multipliers of its weights: the weights of a lift, and the sum of the growths.
ghost use Rattle.std.specs.Prelude.{◌≡◌, ◌<◌, length};
ghost use Rattle.round.specs.Round.{weight_at, G};
ghost use Rattle.round.specs.Rows.{row_lifts};
ghost use Rattle.weights.specs.Scaling.{weights_by, WeightsFit};

use crate::{Scale, lift_at, rows_of};
use round::{Lift, Weight};

// A round lent as rows, and multipliers by which its weights have room.
#[derive(Clone, Copy)]
pub struct WeighedRound<'a> {
    pub scale: Scale,
    pub rows: &'a [u32],
    pub ghost fits: { WeightsFit scale (row_lifts rows.now) },
}

impl WeighedRound<'_> {
    // The weights of the lift at a place.
    pub fn weight_at(&self, place: usize) -> Weight
        requires { place < length (row_lifts self.now.rows.now) }
        ensures { result ≡ weight_at (weights_by self.now.scale self.now.rows.now) place }
    {
        self.scale.weight(lift_at(self.rows, place))
    }

    // The sum of all growths above zero.
    pub fn growth_sum(&self) -> u64
        ensures { result ≡ G (weights_by self.now.scale self.now.rows.now) }
    {
        rows_of(self.rows)
            .iter()
            .map(|&row| self.scale.weight(Lift::from(row)).growth())
            .sum()
    }
}
