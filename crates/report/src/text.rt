// The text: what is printed, byte by byte.
ghost use Rattle.std.specs.Prelude.{◌≡◌, [], ◌∷◌, ◌++◌, ◌+◌, ◌≤◌, ◌<◌, length};
ghost use Rattle.reply.specs.Refusal.{refusal_of};
ghost use Rattle.report.specs.Report.{decimal, field, choice_line, pair_lines, words_line, refused_line, text_room};

use crate::TEXT_ROOM;
use reply::Refusal;
use sheet::Sheet;
use std::marker::Model;

// A text with room for every text that is printed.
#[derive(Drop)]
pub struct Text {
    bytes: [u8; TEXT_ROOM],
    len: usize,
}

// Clauses see the bytes that are written.
impl Model for Text {
    ghost use Rattle.std.specs.Prelude.{ℕ, List, take, ◌≤◌};
    ghost use Rattle.report.specs.Report.{text_room};

    ghost Value = { List ℕ };

    ghost view = { λ t. take t.len t.bytes };

    ghost invariant = { λ t. t.len ≤ text_room };
}

impl Text {
    // An empty text.
    fn new() -> Text
        ensures { result ≡ [] }
    {
        Text {
            bytes: [0; TEXT_ROOM],
            len: 0,
        }
    }

    // Writes some bytes.
    fn push_bytes(&mut self, bytes: &[u8])
        requires { length self.old + length bytes.now ≤ text_room }
        ensures { self.new ≡ self.old ++ bytes.now }
    {
        let end = self.len + bytes.len();
        self.bytes[self.len..end].copy_from_slice(bytes);
        self.len = end;
    }

    // Writes a byte.
    fn push(&mut self, byte: u8)
        requires { length self.old < text_room }
        ensures { self.new ≡ self.old ++ byte ∷ [] }
    {
        self.bytes[self.len] = byte;
        self.len += 1;
    }

    // Writes a number in decimal.
    #[tactic(auto, using(crate::proofs::Texts::writing))]
    fn push_decimal(&mut self, n: u64)
        requires { length self.old + length (decimal n) ≤ text_room }
        ensures { self.new ≡ self.old ++ decimal n }
    {
        if 10 <= n {
            self.push_decimal(n / 10);
        }
        self.push(b'0' + (n % 10) as u8);
    }

    // Writes a number and a byte behind it.
    #[tactic(auto, using(crate::proofs::Texts::writing), unfolding(crate::specs::Report::field))]
    fn push_field(&mut self, n: u64, behind: u8)
        requires { length self.old + length (field n behind) ≤ text_room }
        ensures { self.new ≡ self.old ++ field n behind }
    {
        self.push_decimal(n);
        self.push(behind);
    }

    // Writes the line of a choice.
    #[tactic(auto, using(crate::proofs::Texts::writing), unfolding(crate::specs::Report::choice_line))]
    fn push_line(&mut self, round: u64, number: u64, outcome: u64)
        requires { length self.old + length (choice_line round number outcome) ≤ text_room }
        ensures { self.new ≡ self.old ++ choice_line round number outcome }
    {
        self.push_field(round, b' ');
        self.push_field(number, b' ');
        self.push_field(outcome, b'\n');
    }

    // Writes the lines of output words, two for each choice.
    fn push_lines(&mut self, pairs: &[u32])
        requires { length self.old + length (pair_lines pairs.now) ≤ text_room }
        ensures { self.new ≡ self.old ++ pair_lines pairs.now }
    {
        for &[first, second] in pairs.as_chunks::<2>().0 {
            let round = Sheet::round(first) as u64;
            let number = u64::from(Sheet::payload(second));
            let outcome = Sheet::measure(first);
            self.push_line(round, number, outcome);
        }
    }

    // The text of choices: a line for each, and how many words were read.
    #[tactic(auto, using(crate::proofs::Texts::writing), unfolding(crate::specs::Report::words_line))]
    pub fn chosen(pairs: &[u32], words: u64) -> Text
        requires { length (pair_lines pairs.now ++ words_line words) ≤ text_room }
        ensures { result ≡ pair_lines pairs.now ++ words_line words }
    {
        let mut text = Text::new();
        text.push_lines(pairs);
        text.push_bytes(b"words ");
        text.push_field(words, b'\n');
        text
    }

    // The text of a refusal.
    #[tactic(auto, using(crate::proofs::Texts::writing, crate::proofs::Sizes::field_room), unfolding(crate::specs::Report::refused_line))]
    pub fn refused(refusal: Refusal) -> Text
        ensures { result ≡ refused_line (refusal_of refusal) }
    {
        let mut text = Text::new();
        text.push_bytes(b"refused ");
        text.push_field(u64::from(refusal.number()), b' ');
        text.push_field(refusal.place() as u64, b'\n');
        text
    }

    // What is written.
    pub fn as_bytes(&self) -> &[u8]
        ensures is { result.now ≡ self.now }
        ensures fits { length result.now ≤ text_room }
    {
        &self.bytes[..self.len]
    }
}
