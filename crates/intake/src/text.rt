// A line of the centre's text, read from the front.
ghost use Rattle.std.specs.Prelude.{◌≡◌, false, ◌<◌, drop, MatchOption};
ghost use Rattle.counts.specs.Text.{value, empty, is_number, malformed, count_line};
ghost use Rattle.intake.specs.Positions.{cap, clamp, span, leading, first_line, NumberRead, EndingRead, LineRead};

// The largest lift number and the largest count of a line.
const LARGEST_LIFT: u32 = 268435455;

const LARGEST_COUNT: u32 = 104857600;

// Numbers are clamped to one above the largest that a line may have.
const CAP: u32 = 268435456;

// What a line says: a lift and its count.
#[derive(Clone, Copy)]
pub struct Line {
    pub lift: u32,
    pub count: u32,
}

// The number of the digits that a text begins with, clamped, and what is behind them.
fn read_digits(text: &[u8]) -> (u32, &[u8])
    ensures value { result.0 ≡ clamp (value (leading text.now)) }
    ensures behind { result.1.now ≡ drop (span text.now) text.now }
{
    let mut value = 0;
    let mut rest = text;
    while let [b @ b'0'..=b'9', behind @ ..] = rest {
        value = CAP.min(value * 10 + u32::from(*b - b'0'));
        rest = behind;
    }
    (value, rest)
}

// The number up to a limit that a text begins with, and what is behind it.
fn read_number(text: &[u8], limit: u32) -> Option<(u32, &[u8])>
    requires { limit < cap }
    ensures { MatchOption result (is_number limit (leading text.now) ≡ false) (λ p. NumberRead limit text.now p.0 p.1.now) }
{
    let (value, rest) = read_digits(text);
    if rest.len() == text.len() || limit < value {
        return None;
    }
    Some((value, rest))
}

// What is behind the ending of a line at the front of a text; the text's end is one.
fn read_ending(text: &[u8]) -> Option<&[u8]>
    ensures { MatchOption result (empty (first_line text.now) ≡ false) (λ rest. EndingRead text.now rest.now) }
{
    match text {
        [] => Some(text),
        [b'\n', rest @ ..] => Some(rest),
        [b'\r', b'\n', rest @ ..] => Some(rest),
        _ => None,
    }
}

// The line at the front of a text, and what is behind it.
pub fn read_line(text: &[u8]) -> Option<(Line, &[u8])>
    ensures { MatchOption result (count_line (first_line text.now) ≡ malformed) (λ p. LineRead text.now p.0 p.1.now) }
{
    let (lift, rest) = read_number(text, LARGEST_LIFT)?;
    let [b',', rest @ ..] = rest else {
        return None;
    };
    let (count, rest) = read_number(rest, LARGEST_COUNT)?;
    let rest = read_ending(rest)?;
    Some((Line { lift, count }, rest))
}
