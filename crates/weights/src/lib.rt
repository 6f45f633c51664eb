// The weights of a round's lifts: their growths, the sums that the choice goes by, and the multipliers that give the weights.
#![tactic(auto)]

ghost use Rattle.std.specs.Prelude.{◌≡◌, List, map, ◌^◌, ◌≤◌, ◌<◌, length};
ghost use Rattle.round.specs.Round.{lift_at, U, measure_from as sent_of, WellPosed};
ghost use Rattle.round.specs.Rows.{row_lift, row_lifts, Bounded};
ghost use Rattle.weights.specs.Scaling.{HasSums, ProductsFit, multiplier_of, scaled, scale_of, LiftWeightsFit};

use round::{Donors, Lift, Weight};

mod picking;
mod weighing;

pub use weighing::WeighedRound;

// Sums over a round: of its new measures (S), and of the old measures that donor 1 and donor 2 sent (U).
#[derive(Clone, Copy, Default)]
pub struct Sums {
    pub new: u64,
    pub first: u64,
    pub second: u64,
}

// Multipliers that give weights: of new measures, and of the old measures of donor 1 and donor 2. Of the values below `new`,
// `odds` make donor 1's lift preliminary where both donors' lifts are held here.
#[derive(Clone, Copy, Default)]
pub struct Scale {
    pub new: u64,
    pub first: u64,
    pub second: u64,
    pub odds: u64,
}

impl Scale {
    // The multipliers with which a lift grows by its whole new measure.
    pub const WHOLLY: Scale = Scale {
        new: 1,
        first: 0,
        second: 0,
        odds: 0,
    };

    // The multiplier of the old measures of a donor.
    pub fn multiplier(self, donor: u32) -> u64
        ensures { result ≡ multiplier_of self donor }
    {
        match donor {
            1 => self.first,
            2 => self.second,
            _ => 0,
        }
    }

    // A lift's weights.
    pub fn weight(self, lift: Lift) -> Weight
        requires { LiftWeightsFit self lift }
        ensures { result ≡ scaled self lift }
    {
        Weight {
            old: lift.old * self.multiplier(lift.donor),
            new: lift.new * self.new,
        }
    }
}

// The rows of a round, one for each lift.
fn rows_of(rows: &[u32]) -> &[[u32; Lift::ROW]]
    ensures { map row_lift result.now ≡ row_lifts rows.now }
{
    rows.as_chunks::<{ Lift::ROW }>().0
}

// How many lifts the rows have.
pub fn count(rows: &[u32]) -> usize
    ensures { result ≡ length (row_lifts rows.now) }
{
    rows_of(rows).len()
}

// The lift at a place of the round.
pub fn lift_at(rows: &[u32], place: usize) -> Lift
    requires { place < length (row_lifts rows.now) }
    ensures { result ≡ lift_at (row_lifts rows.now) place }
{
    Lift::from(rows_of(rows)[place])
}

// A lift's old measure where it comes from donor k, else 0.
fn measure_from(lift: Lift, k: u32) -> u64
    ensures { result ≡ sent_of k lift }
{
    if lift.donor == k { lift.old } else { 0 }
}

// U: the part of donor k's old sum that came here.
fn donated(rows: &[u32], k: u32) -> u64
    requires { U k (row_lifts rows.now) ≤ 2 ^ 61 }
    ensures { result ≡ U k (row_lifts rows.now) }
{
    rows_of(rows)
        .iter()
        .map(|&row| measure_from(Lift::from(row), k))
        .sum()
}

impl Sums {
    // The sums that the choice of a round goes by.
    pub fn of(rows: &[u32], donors: Donors) -> Sums
        requires { WellPosed donors (row_lifts rows.now) × Bounded donors (row_lifts rows.now) }
        ensures { HasSums donors (row_lifts rows.now) result }
    {
        let whole = WeighedRound {
            scale: Scale::WHOLLY,
            rows,
        };
        let new = whole.growth_sum();
        match donors {
            Donors::None => Sums {
                new,
                ..Sums::default()
            },
            Donors::One(_) => Sums {
                new,
                first: donated(rows, 1),
                ..Sums::default()
            },
            Donors::Two(_, _) => Sums {
                new,
                first: donated(rows, 1),
                second: donated(rows, 2),
            },
        }
    }

    // The multipliers that give the weights of a round with these sums.
    pub fn scaling(self, donors: Donors) -> Scale
        requires { ProductsFit donors self }
        ensures { (ls : List Lift) → HasSums donors ls self → result ≡ scale_of donors ls }
    {
        match donors {
            Donors::None => Scale::default(),
            Donors::One(_) => Scale {
                new: self.first,
                first: self.new,
                ..Scale::default()
            },
            Donors::Two(t1, t2) => {
                let odds = self.second * t1;
                Scale {
                    new: self.first * t2 + odds,
                    first: t2 * self.new,
                    second: t1 * self.new,
                    odds,
                }
            }
        }
    }
}
