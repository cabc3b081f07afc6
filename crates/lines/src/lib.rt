//! Text in lines and fields: a line ends with byte 10, and byte 9 parts its fields.

#![tactic(auto)]

ghost use Rattle.std.specs.Prelude.{◌≡◌, ℕ, List, Option, ◌+◌, ◌-◌, ◌^◌, ◌<◌, ◌≤◌, ◌∷◌, ◌++◌, length, IfSome, MatchOption};
ghost use Rattle.std.specs.Iterator.{YieldsFirstBy, item_count};
ghost use Rattle.std.specs.Option.{option_map};
ghost use Rattle.lines.specs.Numbers.{Spelled, Spells};
ghost use Rattle.lines.specs.Pieces.{raw, lines_of, Lacks, Lined, fields_of, fields_left, most_left, Fielded, NextNumber};
ghost use Rattle.lines.specs.Unread.{Unread};

use std::marker::Model;

// How many digits a number has at most.
const MAX_DIGITS: usize = 4;

/// A line of a file, without the byte 10 that ends it.
#[derive(Clone, Copy, PartialEq, Eq, Debug)]
pub struct Line<'a> {
    pub bytes: &'a [u8],
    /// From 1 on.
    pub number: usize,
    /// Whether a byte 10 ends it.
    // no Option of the bytes: it has them in both cases
    pub finished: bool,
}

/// The lines of a lent file that are still to come.
#[derive(Drop)]
pub struct Lines<'a> {
    // what follows the lines that were handed out
    rest: &'a [u8],
    // how many were
    passed: usize,
}

impl<'a> Model for Lines<'a> {
    ghost Value = { Unread (List ℕ) };

    ghost view = { λ s. record { rest = s.rest.now; passed = s.passed } };

    ghost invariant = { λ s. s.passed + length s.rest.now < 2 ^ 63 };
}

/// A field of a line.
#[derive(Clone, Copy, PartialEq, Eq, Debug)]
pub struct Field<'a> {
    pub bytes: &'a [u8],
    /// From 1 on.
    pub number: usize,
}

/// The fields of a line that are still to come.
// no one type with the lines: behind a last byte 10 comes no line, behind a last byte 9 an empty field
#[derive(Drop)]
pub struct Fields<'a> {
    // what follows the fields that were handed out, if any does
    rest: Option<&'a [u8]>,
    // how many were
    passed: usize,
}

impl<'a> Model for Fields<'a> {
    ghost Value = { Unread (Option (List ℕ)) };

    ghost view = { λ s. record { rest = option_map (λ x. x.now) s.rest; passed = s.passed } };

    ghost invariant = { λ s. s.passed + most_left (λ x. x.now) s.rest < 2 ^ 64 };
}

// What stands before the first byte `stop`, and what follows that byte, if there is one.
fn split_at_byte<'a>(bytes: &'a [u8], stop: u8) -> (&'a [u8], Option<&'a [u8]>)
    ensures before { Lacks stop result.0.now }
    ensures parts { MatchOption result.1 (bytes.now ≡ result.0.now) (λ after. bytes.now ≡ result.0.now ++ (stop ∷ after.now)) }
{
    // no `position`, by which the lines of a file take a quarter more time
    for (at, byte) in bytes.iter().enumerate() {
        if *byte == stop {
            return (&bytes[..at], Some(&bytes[at + 1..]));
        }
    }
    (bytes, None)
}

impl<'a> Lines<'a> {
    /// All lines of the file.
    pub fn new(file: &'a [u8]) -> Lines<'a>
        ensures rest { result.rest ≡ file.now }
        ensures passed { result.passed ≡ 0 }
        ensures few { length file.now < 2 ^ 63 }
    {
        Lines {
            rest: file,
            passed: 0,
        }
    }

    /// How many lines were handed out.
    pub fn passed(&self) -> usize
        ensures few { self.now.passed + length self.now.rest < 2 ^ 63 }
        ensures passed { result ≡ self.now.passed }
    {
        self.passed
    }
}

/// Hands out what stands up to the next byte 10, or up to the file's end.
impl<'a> Iterator for Lines<'a> {
    type Item = Line<'a>;

    ghost next_gives = { λ s r t. YieldsFirstBy raw (λ s. lines_of s.rest) s r t × NextNumber s.passed (λ l. l.number) r t.passed × Lined s.rest × (t.passed + length t.rest < 2 ^ 63) };

    ghost remaining = { item_count (λ s. lines_of s.rest) };

    fn next(&mut self) -> Option<Line<'a>> {
        if self.rest.is_empty() {
            return None;
        }
        let (bytes, after) = split_at_byte(self.rest, b'\n');
        self.rest = after.unwrap_or(&[]);
        self.passed += 1;
        Some(Line {
            bytes,
            number: self.passed,
            finished: after.is_some(),
        })
    }
}

impl<'a> Fields<'a> {
    /// All fields of a line.
    pub fn new(line: &'a [u8]) -> Fields<'a>
        ensures rest { fields_left (λ x. x) result.rest ≡ fields_of line.now }
        ensures passed { result.passed ≡ 0 }
        ensures few { result.passed + most_left (λ x. x) result.rest < 2 ^ 64 }
    {
        Fields {
            rest: Some(line),
            passed: 0,
        }
    }

    /// The fields that follow the first one, where `rest` is what stands behind its byte 9, if one follows it.
    pub fn after_first(rest: Option<&'a [u8]>) -> Fields<'a>
        ensures rest { fields_left (λ x. x) result.rest ≡ fields_left (λ x. x.now) rest.entry }
        ensures passed { result.passed ≡ 1 }
        ensures few { result.passed + most_left (λ x. x) result.rest < 2 ^ 64 }
    {
        Fields { rest, passed: 1 }
    }
}

/// Hands out what stands up to the next byte 9, or up to the line's end.
impl<'a> Iterator for Fields<'a> {
    type Item = Field<'a>;

    ghost next_gives = { λ s r t. YieldsFirstBy (λ f. f.bytes.now) (λ s. fields_left (λ x. x) s.rest) s r t × NextNumber s.passed (λ f. f.number) r t.passed × IfSome s.rest Fielded × (t.passed + most_left (λ x. x) t.rest < 2 ^ 64) };

    ghost remaining = { item_count (λ s. fields_left (λ x. x) s.rest) };

    fn next(&mut self) -> Option<Field<'a>> {
        let (bytes, rest) = split_at_byte(self.rest?, b'\t');
        self.rest = rest;
        self.passed += 1;
        Some(Field {
            bytes,
            number: self.passed,
        })
    }
}

/// The number that a field spells: one to four digits, and no leading zero but that of 0 itself.
pub fn read_number(field: &[u8]) -> Option<u16>
    ensures cases { MatchOption result (Spelled field.now → ⊥) (λ n. Spelled field.now × Spells field.now n) }
{
    if field.is_empty() || field.len() > MAX_DIGITS {
        return None;
    }
    if field[0] == b'0' && field.len() > 1 {
        return None;
    }
    let mut number = 0;
    for byte in field {
        if *byte < b'0' || *byte > b'9' {
            return None;
        }
        number = 10 * number + u16::from(*byte - b'0');
    }
    Some(number)
}
