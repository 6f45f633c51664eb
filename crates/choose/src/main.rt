// The program of document 01: it reads sheet.bin and words.bin in the current folder and prints the text of their bytes.
#![tactic(auto)]

ghost use Rattle.choose.specs.Printing.{Printed};

use reading::Contents;
use sheet::Sheet;

mod reading;

// How many bytes of a sheet decide its text.
const SHEET_BYTES: usize = 4 * Sheet::LONGEST;

// How many bytes of the random words do.
const WORDS_BYTES: usize = report::WORDS_BYTES;

fn main(rt: HostRuntime) {
    let mut sheet = Contents::<SHEET_BYTES>::new();
    sheet.read(&rt, "sheet.bin", usize::MAX);
    let mut words = Contents::<WORDS_BYTES>::new();
    words.read(&rt, "words.bin", WORDS_BYTES);
    print_report(&rt, &sheet, &words);
}

// Prints the text of what was read, each with room for all bytes that decide it. Never inlined, so that its large arrays are not there
// while a file is read.
#[inline(never)]
fn print_report(
    rt: &(impl Print + Eprint),
    sheet: &Contents<SHEET_BYTES>,
    words: &Contents<WORDS_BYTES>,
) {
    let text = report::report(sheet.kept_bytes(), sheet.size, words.kept_bytes());
    print(rt, text.as_bytes(), sheet, words);
}

// Prints a text that must be that of what was read, and of the whole files.
fn print(
    rt: &(impl Print + Eprint),
    text: &[u8],
    sheet: &Contents<SHEET_BYTES>,
    words: &Contents<WORDS_BYTES>,
)
    requires { Printed text.now sheet.now words.now }
{
    if let Err(error) = rt.write_all(text) {
        let _ = eprintln!(rt; "standard output: {error}");
    }
}
