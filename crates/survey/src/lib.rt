// The tables of a sheet by round, gathered in one walk, and the verdict on a sheet from them ("Refused because of the sheet" of document 01).
#![tactic(auto)]

ghost use Rattle.std.specs.Prelude.{◌≡◌, ℕ, List, [], ◌∷◌, ◌++◌, ◌≤◌, Bool, ◌&&◌, leb, ltb, length, get_or, drop, count_by, IfOk, IsOkAnd};
ghost use Rattle.std.specs.Fn.{FnReturnsAt};
ghost use Rattle.sheet.specs.Sheet.{most_rounds, Lift, lifts};
ghost use Rattle.sheet.specs.Lift.{entry_of};
ghost use Rattle.tally.specs.Rounds.{rounds};
ghost use Rattle.tally.specs.Verdict.{nothing_more, of_rounds, verdict_by, verdict, verdict_of, counts_of};
ghost use Rattle.tally.specs.Tables.{donor_count, Tabled, Room, found_first as first_of};
ghost use Rattle.tally.specs.declared.OldRound.{OldRound};
ghost use Rattle.tally.specs.declared.NewRound.{NewRound};

use reply::Refusal;
use sheet::{Entry, LegibleSheet, Sheet};
use tally::{Examined, FittingSheet, NewRound, OldRound, Tallies};

// ---- the tables

// Adds one lift to the tables.
fn add(t: &mut Tallies, l: Entry)
    requires from_in_bounds { l.from ≤ most_rounds }
    requires to_in_bounds { l.to ≤ most_rounds }
    requires room { (o : OldRound) (n : NewRound) → Room (get_or t.now.old l.from o) (get_or t.now.new l.to n) l }
    ensures { (ls : List Lift) (x : Lift) → l ≡ entry_of x → Tabled ls t.entry.now → Tabled (ls ++ x ∷ []) t.exit.now }
{
    let old = &mut t.old[l.from];
    old.lifts += 1;
    old.held += u64::from(l.held);
    old.sum += l.old;
    let new = &mut t.new[l.to];
    new.lifts += 1;
    new.sum += l.new;
    new.donors[l.from / 64] |= u64::from(0 < l.old) << (l.from % 64);
}

// The tables of a legible sheet, in one walk over its lifts.
fn survey(sheet: LegibleSheet<'_>) -> Tallies
    ensures { Tabled (lifts sheet.entry.words.now) result }
{
    let mut tables = Tallies::EMPTY;
    for l in scan::lifts(sheet) {
        add(&mut tables, l);
    }
    tables
}

// ---- the rounds

// The first round from 1 up that passes a test.
fn first_round<R, F: Fn(&R) -> bool>(table: &[R; Sheet::TABLE], test: F) -> Option<usize>
    requires { (f : _) (x : _) → F.FnMut.pre f x }
    ensures { (p : R → Bool) → ((x : R) (b : Bool) → FnReturnsAt F.Fn test x b → b ≡ p x) → (d : R) → result ≡ first_of (rounds (λ r. p (get_or table.now r d))) }
{
    table.iter().skip(1).position(test).map(|k| k + 1)
}

// How many bits are set in two words.
fn donor_count(words: [u64; 2]) -> u32
    ensures { result ≡ donor_count words }
{
    words[0].count_ones() + words[1].count_ones()
}

// The first new round with three donors or more.
fn first_crowded(t: &Tallies) -> Option<usize>
    ensures { (d : NewRound) → result ≡ first_of (rounds (λ r. let n = get_or t.now.new r d in ltb 0 n.lifts && leb 3 (donor_count n.donors))) }
{
    first_round(&t.new, |n| 0 < n.lifts && 3 <= donor_count(n.donors))
}

// How many new rounds are in use.
pub fn in_use(table: &[NewRound; Sheet::TABLE]) -> usize
    ensures entries { result ≡ count_by (λ n. ltb 0 n.lifts) (drop 1 table.now) }
    ensures rounds { (d : NewRound) → result ≡ length (rounds (λ r. ltb 0 (get_or table.now r d).lifts)) }
{
    table.iter().skip(1).filter(|r| 0 < r.lifts).count()
}

// ---- the verdict

// How many lifts and new rounds a legible sheet has, or the first of the refusals 7 to 9 that applies to it, from its tables.
fn check_rounds(sheet: LegibleSheet<'_>, t: &Tallies) -> Result<Sheet, Refusal>
    requires { Tabled (lifts sheet.words.now) t.now }
    ensures { verdict_of result ≡ of_rounds [] (lifts sheet.entry.words.now) }
{
    if let Some(r) = first_round(&t.old, |o| 0 < o.lifts && o.held != 1) {
        return Err(Refusal::NotOneHeld(r));
    }
    if let Some(r) = first_round(&t.old, |o| Sheet::LARGEST_SUM < o.sum) {
        return Err(Refusal::Oversize(r));
    }
    if let Some(r) = first_round(&t.new, |n| Sheet::LARGEST_SUM < n.sum) {
        return Err(Refusal::Oversize(r));
    }
    if let Some(r) = first_round(&t.new, |n| 0 < n.lifts && n.sum == 0) {
        return Err(Refusal::ZeroSum(r));
    }
    Ok(Sheet {
        lifts: scan::size(sheet),
        rounds: in_use(&t.new),
    })
}

// The sheet of words with its tables, or the first of the refusals 1 to 9 and 16 that applies to it.
pub fn examine(words: &[u32]) -> Result<Examined<'_>, Refusal>
    ensures said { verdict_of (counts_of result (λ e. e.counts)) ≡ verdict_by nothing_more words.now }
    ensures same { IfOk result (λ e. e.sheet.words ≡ words.entry) }
{
    let sheet = scan::read(words)?;
    let tallies = survey(sheet);
    let counts = check_rounds(sheet, &tallies)?;
    Ok(Examined {
        sheet,
        counts,
        tallies,
    })
}

// The answer with refusal 10 behind 9, from the answer up to 9 and its tables.
pub fn with_donors(examined: Result<Examined<'_>, Refusal>) -> Result<FittingSheet<'_>, Refusal>
    ensures said { (ws : List ℕ) → verdict_of (counts_of examined.entry (λ e. e.counts)) ≡ verdict_by nothing_more ws → IfOk examined.entry (λ e. e.sheet.words.now ≡ ws) → verdict_of (counts_of result (λ f. f.counts)) ≡ verdict ws }
    ensures same { IfOk result (λ f. IsOkAnd examined.entry (λ e. f.sheet.words ≡ e.sheet.words)) }
{
    let e = examined?;
    if let Some(r) = first_crowded(&e.tallies) {
        return Err(Refusal::TooManyDonors(r));
    }
    Ok(FittingSheet {
        sheet: e.sheet,
        counts: e.counts,
        tallies: e.tallies,
    })
}

// The sheet of words with its tables, or the first of all refusals of a sheet that applies to it.
#[tactic(auto, using(crate::proofs::Sheets::words_now, crate::proofs::Sheets::words_same))]
pub fn fitting(words: &[u32]) -> Result<FittingSheet<'_>, Refusal>
    ensures said { verdict_of (counts_of result (λ f. f.counts)) ≡ verdict words.now }
    ensures same { IfOk result (λ f. f.sheet.words ≡ words.entry) }
{
    with_donors(examine(words))
}

// How many lifts and new rounds the sheet of words has, or the first of all refusals of a sheet that applies to it.
pub fn check(words: &[u32]) -> Result<Sheet, Refusal>
    ensures { verdict_of result ≡ verdict words.now }
{
    Ok(fitting(words)?.counts)
}
