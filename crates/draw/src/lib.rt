// One draw below a bound from a list of random words ("chance words" of document 01).
#![tactic(auto)]

ghost use Rattle.std.specs.Prelude.{◌≡◌, ◌≤◌, IfNone, nat_lt};
ghost use Rattle.std.specs.List.{position};
ghost use Rattle.draw.specs.Draw.{largest, draw_at, reached, ExactlyK};

// A reader of random words: the list, and the position of the next word.
#[derive(Drop)]
pub struct Reader<'a> {
    pub words: &'a [u64],
    pub at: usize,
}

// Where the first word below `limit` stands.
fn first_below(words: &[u64], limit: u64) -> Option<usize>
    ensures place { result ≡ position (λ word. nat_lt word limit) words.now }
{
    words.iter().position(|&word| word < limit)
}

impl<'a> Reader<'a> {
    // A reader that stands at position `at`.
    pub fn new(words: &'a [u64], at: usize) -> Reader<'a>
        ensures list { result.words ≡ words.entry }
        ensures position { result.at ≡ at }
    {
        Reader { words, at }
    }

    // A draw below `bound`: the first word that is not passed over gives the value. Where the words end, the reader stays.
    pub fn draw(&mut self, bound: u64) -> Option<u64>
        requires positive { 1 ≤ bound }
        ensures value { reached result self.new.at ≡ draw_at largest self.old.words.now self.old.at bound }
        ensures list { self.new.words ≡ self.old.words }
        ensures stays { IfNone result (self.new.at ≡ self.old.at) }
        ensures exact { ExactlyK largest bound }
    {
        let limit = u64::MAX / bound * bound;
        let rest = self.words.get(self.at..)?;
        let passed = first_below(rest, limit)?;
        self.at += passed + 1;
        Some(rest[passed] % bound)
    }
}
