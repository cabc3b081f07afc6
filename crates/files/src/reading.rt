//! Reading a network file: its size, then one record at a time.

ghost use Rattle.std.specs.Prelude.{◌≡◌, ◌+◌, ◌^◌, ◌<◌, length, drop, MatchResult};
ghost use Rattle.std.specs.Iterator.{item_count};
ghost use Rattle.lines.specs.Pieces.{raw, lines_of};
ghost use Rattle.files.specs.ReaderView.{ReaderView};
ghost use Rattle.files.specs.Says.{SaysSize, SizeFault, SaysRecord, RecordFault, FirstSays, NextSays, OneSaying};

use crate::fields::{numbers, split_letter};
use lines::{Line, Lines};
use records::faults::TextFault;
use records::{Record, Size};
use std::marker::Model;

// What the first line of a file says.
fn read_size(line: Line) -> Result<Size, TextFault>
    requires { line.number ≡ 1 }
    ensures { MatchResult result (λ s. SaysSize (raw line.entry) s) (λ f. SizeFault (raw line.entry) f) }
{
    let Some((letter, rest)) = split_letter(line.bytes) else {
        return Err(TextFault::NoSize);
    };
    match letter {
        'n' => {
            let [channels, places] = numbers::<2>(line, rest)?;
            Ok(Size { channels, places })
        }
        _ => Err(TextFault::NoSize),
    }
}

// What a later line says.
fn read_record(line: Line) -> Result<Record, TextFault>
    ensures { MatchResult result (λ x. SaysRecord (raw line.entry) x) (λ f. RecordFault line.entry.number (raw line.entry) f) }
{
    let number = line.number;
    let Some((letter, rest)) = split_letter(line.bytes) else {
        return Err(TextFault::UnknownLetter { line: number });
    };
    match letter {
        'e' => {
            let [channel, place] = numbers::<2>(line, rest)?;
            Ok(Record::Entry { channel, place })
        }
        'h' => {
            let [channel, place] = numbers::<2>(line, rest)?;
            Ok(Record::Home { channel, place })
        }
        'w' => {
            let [channel, place, next] = numbers::<3>(line, rest)?;
            Ok(Record::Way {
                channel,
                place,
                next,
            })
        }
        'n' => Err(TextFault::SizeAgain { line: number }),
        _ => Err(TextFault::UnknownLetter { line: number }),
    }
}

/// Reads a lent file: the size that its first line says, and then the record of each line after it.
#[derive(Drop)]
pub struct Reader<'a> {
    file: &'a [u8],
    lines: Lines<'a>,
}

impl<'a> Model for Reader<'a> {
    ghost Value = { ReaderView };

    ghost view = { λ s. record { file = s.file.now; left = lines_of s.lines.rest; passed = s.lines.passed } };
}

impl<'a> Reader<'a> {
    /// A reader whose next record is that of the second line.
    #[tactic(auto, using(crate::proofs::OneSaying::one_saying))]
    pub fn new(file: &'a [u8]) -> Reader<'a>
        ensures file { result.file ≡ file.now }
        ensures lines { result.left ≡ drop 1 (lines_of file.now) }
        ensures passed { result.passed + length result.left ≡ length (lines_of file.now) }
        ensures one { OneSaying }
    {
        let mut lines = Lines::new(file);
        let _ = lines.next();
        Reader { file, lines }
    }

    /// The size that the first line says, or that line's fault.
    pub fn size(&self) -> Result<Size, TextFault>
        ensures { FirstSays (lines_of self.now.file) result }
    {
        let mut lines = Lines::new(self.file);
        let Some(first) = lines.next() else {
            return Err(TextFault::NoSize);
        };
        read_size(first)
    }

    /// The number of the line that was read last.
    #[tactic(auto, using(lines::proofs::Laws::few_lines))]
    pub fn line(&self) -> usize
        ensures line { result ≡ self.now.passed }
        ensures few { self.now.passed + length self.now.left < 2 ^ 63 }
    {
        self.lines.passed()
    }
}

/// Hands out the record that each line says, or that line's fault, and then goes on behind that line.
impl<'a> Iterator for Reader<'a> {
    type Item = Result<Record, TextFault>;

    ghost next_gives = { λ s r t. (t.file ≡ s.file) × NextSays s.passed s.left r t.passed t.left };

    ghost remaining = { item_count (λ s. s.left) };

    fn next(&mut self) -> Option<Result<Record, TextFault>> {
        self.lines.next().map(read_record)
    }
}
