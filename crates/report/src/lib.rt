// The printed text, from the bytes of both files ("The program" of document 01).
#![tactic(auto)]

ghost use Rattle.std.specs.Prelude.{◌≡◌, ◌/◌, ◌≤◌, length};
ghost use Rattle.sheet.specs.Sheet.{longest};
ghost use Rattle.report.specs.Report.{sheet_words, random_words, text_of, report as report_of};

use reply::Refusal;
use sheet::Sheet;
pub use text::Text;
use words::decode;

mod text;
mod words;

// How many words of the file of random words are read.
const MOST_WORDS: usize = 4096;

// How many bytes of it are read.
pub const WORDS_BYTES: usize = 8 * MOST_WORDS;

// Room for every text.
pub const TEXT_ROOM: usize = 2048;

// The text of a sheet's bytes, with the words of the other file.
fn chosen_text(sheet: &[u8], words: &[u8]) -> Text
    requires { length sheet.now / 4 ≤ longest }
    ensures { result ≡ text_of (sheet_words sheet.now) (random_words words.now) }
{
    let mut lent = [0u32; Sheet::LONGEST];
    let mut random = [0u64; MOST_WORDS];
    let mut out = [0u32; 2 * Sheet::MOST_ROUNDS];
    let sheet = decode::<u32, 4>(sheet, &mut lent);
    let words = decode::<u64, 8>(words, &mut random);
    match panel::choose(sheet, words, 0, &mut out) {
        Ok(done) => Text::chosen(&out[..2 * done.many], done.words as u64),
        Err(refusal) => Text::refused(refusal),
    }
}

// The whole text, from what was read of the sheet, its true length in bytes, and what was read of the words.
pub fn report(sheet: &[u8], size: usize, words: &[u8]) -> Text
    ensures { result ≡ report_of sheet.now size words.now }
{
    if size % 4 != 0 {
        return Text::refused(Refusal::Length(size));
    }
    if Sheet::LONGEST < size / 4 {
        return Text::refused(Refusal::Length(size / 4));
    }
    let kept = size.min(sheet.len());
    chosen_text(&sheet[..kept], words)
}
