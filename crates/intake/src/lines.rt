// The lines of the centre's text one by one: each names a lift of the sheet, and gives it a count.
ghost use Rattle.std.specs.Prelude.{◌≡◌, ◌≤◌, ◌<◌, leb, false, [], length, replicate, None, MatchOption, MatchResult, slice_index};
ghost use Rattle.probability.specs.Among.{among};
ghost use Rattle.probability.specs.Sum.{indicator};
ghost use Rattle.reply.specs.Refusal.{refusal_of};
ghost use Rattle.sheet.specs.Sheet.{most_lifts};
ghost use Rattle.sheet.specs.Reading.{faulty};
ghost use Rattle.counts.specs.Text.{lines};
ghost use Rattle.counts.specs.Counts.{lines_from};
ghost use Rattle.intake.specs.Positions.{RisingAbove, AllTaken};

use crate::text::read_line;
use reply::Refusal;
use sheet::Sheet;

// 1 if a number is at most another, else 0: computed, since a comparison compiles to a branch that nobody can predict.
fn at_most(m: u32, n: u32) -> usize
    ensures { result ≡ indicator (leb m n) }
{
    ((u64::from(n) + ((1 << 32) - u64::from(m))) >> 32) as usize
}

// Where a number stands among rising numbers: a binary search without branches and with as many steps for any of them, which is faster here
// than the library's.
fn find(numbers: &[u32], n: u32) -> Option<usize>
    requires few { length numbers.now ≤ most_lifts }
    requires rising { RisingAbove 0 numbers.now }
    ensures { MatchOption result (among n numbers.now ≡ false) (λ k. (k < length numbers.now) × (slice_index numbers.now k ≡ n)) }
{
    let mut low = 0;
    let mut size = Sheet::MOST_LIFTS;
    while 1 < size {
        let half = size / 2;
        if low + half < numbers.len() {
            low += half * at_most(numbers[low + half], n);
        }
        size -= half;
    }
    let number = numbers.get(low)?;
    if *number != n {
        return None;
    }
    Some(low)
}

// The lines one by one, for lifts of these numbers: the new measures that they give, and how many they are, or the first one's refusal.
pub fn gather(text: &[u8], numbers: &[u32], measures: &mut [Option<u32>]) -> Result<usize, Refusal>
    requires few { length numbers.now ≤ most_lifts }
    requires rising { RisingAbove 0 numbers.now }
    requires empty { measures.old ≡ replicate (length numbers.now) None }
    ensures { MatchResult result (λ n. AllTaken numbers.now (lines text.now) n measures.new) (λ x. lines_from numbers.now [] 1 (lines text.now) ≡ faulty (refusal_of x)) }
{
    let mut rest = text;
    let mut i = 0;
    while !rest.is_empty() {
        i += 1;
        let (line, behind) = read_line(rest).ok_or(Refusal::Form(i))?;
        let k = find(numbers, line.lift).ok_or(Refusal::Lift(i))?;
        if measures[k].is_some() {
            return Err(Refusal::Lift(i));
        }
        measures[k] = Some(line.count.div_ceil(100));
        rest = behind;
    }
    Ok(i)
}
