// The whole choice as a definition, and demand 3 as a theorem of it; of code the types of the lifts chosen alone.
#![tactic(auto)]

use sheet::Sheet;

// A lift chosen in a round: its number, and the document's outcome.
#[derive(Clone, Copy)]
pub struct Pick {
    pub number: u32,
    pub outcome: u32,
}

// The lifts chosen, by new round.
pub type Picks = [Option<Pick>; Sheet::TABLE];
