//! A line taken apart: its letter, and the numbers behind it.

ghost use Rattle.std.specs.Prelude.{◌≡◌, ℕ, ◌+◌, ◌^◌, ◌<◌, ◌&&◌, nat_eq, if◌then◌else◌, [], ◌∷◌, MatchOption, MatchResult, ◌≢◌, slice_index_or};
ghost use Rattle.lines.specs.Pieces.{raw, fields_of, fields_left};
ghost use Rattle.files.specs.Says.{behind, HasNumbers, NumbersFault};
ghost use Rattle.records.specs.declared.faults.TextFault.TheVariants.{NoNumber, WrongShape};

use lines::{Fields, Line, read_number};
use records::faults::TextFault;

// The letter that is a line's first field, and what stands behind its tab, if one follows it.
pub(super) fn split_letter(line: &[u8]) -> Option<(char, Option<&[u8]>)>
    ensures { MatchOption result ((c : ℕ) → slice_index_or (fields_of line.now) 0 [] ≢ c ∷ []) (λ p. fields_of line.now ≡ (p.0 ∷ []) ∷ fields_left (λ x. x.now) p.1) }
{
    match line {
        [letter] if *letter != b'\t' => Some((char::from(*letter), None)),
        [letter, b'\t', rest @ ..] if *letter != b'\t' => Some((char::from(*letter), Some(rest))),
        _ => None,
    }
}

// What is wrong with a line whose field at a position behind the letter spells no number, where so many fields follow: the
// field, if there are N of them in all.
fn fault_of<const N: usize>(line: Line, field: usize, at: usize, after: usize) -> TextFault
    requires fits { at + 1 + after < 2 ^ 64 }
    ensures { result ≡ (if line.entry.finished && nat_eq (at + 1 + after) N then NoNumber line.entry.number field else WrongShape line.entry.number) }
{
    if line.finished && at + 1 + after == N {
        return TextFault::NoNumber {
            line: line.number,
            field,
        };
    }
    TextFault::WrongShape { line: line.number }
}

// The N numbers of a line, where `rest` is what stands behind its letter.
pub(super) fn numbers<const N: usize>(
    line: Line,
    rest: Option<&[u8]>,
) -> Result<[u16; N], TextFault>
    requires { behind (raw line) ≡ fields_left (λ x. x.now) rest }
    ensures { MatchResult result (λ ns. HasNumbers (raw line.entry) ns) (λ f. NumbersFault N line.entry.number (raw line.entry) f) }
{
    let wrong_shape = TextFault::WrongShape { line: line.number };
    let mut numbers = [0; N];
    let mut fields = Fields::after_first(rest);
    // by index: nothing is known of what an adapter of iter_mut writes
    for at in 0..N {
        let Some(field) = fields.next() else {
            return Err(wrong_shape);
        };
        let Some(number) = read_number(field.bytes) else {
            return Err(fault_of::<N>(line, field.number, at, fields.count()));
        };
        numbers[at] = number;
    }
    if !line.finished || fields.next().is_some() {
        return Err(wrong_shape);
    }
    Ok(numbers)
}
