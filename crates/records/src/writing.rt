//! Writing the lines of a network file.

ghost use Rattle.std.specs.Prelude.{◌≡◌, ℕ, ◌+◌, ◌<◌, ◌≤◌, [], ◌∷◌, ◌++◌, length, decimal, Decides, List};
ghost use Rattle.arrayvec.specs.ArrayVec.{array_vec_len};
ghost use Rattle.records.specs.Rendering.{finished, letter_n, line_text, numbers_text, size_numbers, letter_of, numbers_of, Small};
ghost use Rattle.records.specs.Writes.{WritesLine, OnlyWrites};

use crate::{Record, Size};
use arrayvec::ArrayVec;

/// Why a line was not written.
#[derive(Clone, Copy, PartialEq, Eq, Debug)]
pub enum WriteFault {
    /// A number has more than four digits.
    LargeNumber,
    /// The bytes do not suffice.
    NoRoom,
}

// The largest number of four digits.
const MAX_NUMBER: u16 = 9_999;

// Whether every number has at most four digits.
fn all_small(numbers: &[u16]) -> bool
    ensures { Decides result (Small numbers.now) }
{
    numbers.iter().all(|n| *n <= MAX_NUMBER)
}

// How many bytes a line has at most: a letter, three numbers of five digits, each behind a tab, and the byte 10.
const MAX_LINE: usize = 20;

/// The numbers of a line.
pub type Numbers = ArrayVec<u16, 3>;

// The bytes of a line.
type Line = ArrayVec<u8, MAX_LINE>;

// Puts the digits of a number at a line's end.
fn push_number(line: &mut Line, n: u16)
    requires { array_vec_len line.old + length (decimal n) ≤ MAX_LINE }
    ensures text { line.new.items ≡ line.old.items ++ decimal n }
    ensures len { array_vec_len line.new ≡ array_vec_len line.old + length (decimal n) }
{
    if n < 10 {
        line.push(b'0' + n as u8);
        return;
    }
    push_number(line, n / 10);
    line.push(b'0' + (n % 10) as u8);
}

// How many digits a number has.
fn digits(n: u16) -> usize
    ensures value { result ≡ length (decimal n) }
    ensures bound { result ≤ 5 }
{
    if n < 10 { 1 } else { digits(n / 10) + 1 }
}

// How many bytes a line of these numbers takes. They are counted and not rendered, which takes five times as long.
fn line_len(numbers: &[u16]) -> usize
    requires { length numbers.now ≤ 3 }
    ensures value { result ≡ length (numbers_text numbers.now) + 2 }
    ensures bound { result ≤ 20 }
{
    let mut len = 2;
    for n in numbers {
        len += 1 + digits(*n);
    }
    len
}

// The line of a letter and numbers, its byte 10 included.
fn render(letter: u8, numbers: &[u16]) -> Line
    requires { length numbers.now ≤ 3 }
    ensures { result.items ≡ finished (line_text letter numbers.now) }
{
    let mut line = ArrayVec::new();
    line.push(letter);
    for n in numbers {
        line.push(b'\t');
        push_number(&mut line, *n);
    }
    line.push(b'\n');
    line
}

/// What a line of a network file says: a letter, and numbers behind it.
pub trait Statement: Copy {
    ghost letter: { Self → ℕ };

    ghost numbers: { Self → List ℕ };

    // the byte as it is written, and no enum, which would only be turned into that byte
    fn letter(self) -> u8
        ensures { result ≡ letter self };

    fn numbers(self) -> Numbers
        ensures { result.items ≡ numbers self };

    /// How many bytes its line takes, the byte 10 included.
    fn text_len(self) -> usize
        ensures value { result ≡ length (finished (line_text (letter self) (numbers self))) }
        ensures bound { result ≤ 20 }
    {
        line_len(self.numbers().as_slice())
    }

    /// Writes its line into `out` from `at` on, and answers where the line ends. A refusal writes nothing.
    // `out` and `at` are two parameters, since the promise speaks of all the lent bytes
    #[tactic(auto, using(crate::proofs::Texts::only_writes))]
    fn write(self, out: &mut [u8], at: usize) -> Result<usize, WriteFault>
        ensures writes { WritesLine (letter self) (numbers self) at out.old result out.new }
        ensures only { OnlyWrites (letter self) (numbers self) at out.old result out.new }
    {
        let numbers = self.numbers();
        if !all_small(numbers.as_slice()) {
            return Err(WriteFault::LargeNumber);
        }
        let line = render(self.letter(), numbers.as_slice());
        if at > out.len() || out.len() - at < line.len() {
            return Err(WriteFault::NoRoom);
        }
        let end = at + line.len();
        out[at..end].copy_from_slice(line.as_slice());
        Ok(end)
    }
}

impl Statement for Size {
    ghost letter = { λ _. letter_n };

    ghost numbers = { size_numbers };

    fn letter(self) -> u8 {
        b'n'
    }

    fn numbers(self) -> Numbers {
        let mut numbers = ArrayVec::new();
        numbers.push(self.channels);
        numbers.push(self.places);
        numbers
    }
}

impl Statement for Record {
    ghost letter = { letter_of };

    ghost numbers = { numbers_of };

    fn letter(self) -> u8 {
        match self {
            Record::Entry { .. } => b'e',
            Record::Home { .. } => b'h',
            Record::Way { .. } => b'w',
        }
    }

    fn numbers(self) -> Numbers {
        let mut numbers = ArrayVec::new();
        match self {
            Record::Entry { channel, place } | Record::Home { channel, place } => {
                numbers.push(channel);
                numbers.push(place);
            }
            Record::Way {
                channel,
                place,
                next,
            } => {
                numbers.push(channel);
                numbers.push(place);
                numbers.push(next);
            }
        }
        numbers
    }
}
