//! Result files, read from the front: what somebody says of a network, in the form in which netcheck prints it.

ghost use Rattle.std.specs.Prelude.{◌≡◌, ℕ, ◌<◌, ◌≤◌, List, Option, [], ◌++◌, codes, MatchOption, MatchResult, IsTrue, ◌↔◌, length};
ghost use Rattle.checks.specs.declared.outcome.Check.{Check};
ghost use Rattle.checks.specs.declared.outcome.Verdict.{Verdict};
ghost use Rattle.checks.specs.Words.{verdict_word};
ghost use Rattle.numbering.specs.Outcomes.{count_held};
ghost use Rattle.loads.specs.Loads.{packet_in};
ghost use Rattle.answers.specs.Prints.{mark, number_of};
ghost use Rattle.answers.specs.Results.{Said, ShortLine, Greatest, Agrees, Begins, IsResult, NoResult};
ghost use Rattle.answers.specs.Rows.{Row, Claim, Opening, bad_number, bad_at};

use crate::{MAX_CHANNELS, Told};
use checks::{Check, Verdict};
use lines::{Fields, Lines, read_number};
use loads::LoadRecord;
use numbering::{HELD, Numbering};

/// What a result file says of a network.
#[derive(Clone, Copy, PartialEq, Eq, Debug)]
pub(super) struct Claims {
    pub check: Check,
    pub numbers: [u32; MAX_CHANNELS],
    pub load: [LoadRecord; MAX_CHANNELS],
}

/// Why a file is no result.
#[derive(Clone, Copy, PartialEq, Eq, Debug)]
pub(super) enum ResultFault {
    /// The line is not as it should be, is missing or is one too many.
    Line(usize),
    /// The first line does not agree with the others.
    Agreement,
}

impl ResultFault {
    /// The number of the refusal.
    pub fn number(self) -> u16
        ensures { result ≡ bad_number self }
    {
        match self {
            ResultFault::Line(_) => 70,
            ResultFault::Agreement => 71,
        }
    }

    /// The line of the file, from 1 on.
    pub fn line(self) -> usize
        ensures { result ≡ bad_at self }
    {
        match self {
            ResultFault::Line(line) => line,
            ResultFault::Agreement => 1,
        }
    }
}

// The four fields of the next line, if it is finished and has just so many.
fn next_row<'a>(lines: &mut Lines<'a>) -> Option<(&'a [u8], &'a [u8], &'a [u8], &'a [u8])>
    ensures { MatchOption result
        ((a b c d more : List ℕ) → Row lines.old.rest a b c d more → ⊥)
        (λ r. Row lines.old.rest r.0.now r.1.now r.2.now r.3.now lines.new.rest) }
{
    let line = lines.next().filter(|line| line.finished)?;
    let mut fields = Fields::new(line.bytes);
    let first = fields.next()?.bytes;
    let second = fields.next()?.bytes;
    let third = fields.next()?.bytes;
    let fourth = fields.next()?.bytes;
    if fields.next().is_some() {
        return None;
    }
    Some((first, second, third, fourth))
}

// The verdict that a word is.
fn read_verdict(word: &[u8]) -> Option<Verdict>
    ensures { MatchOption result ((v : Verdict) → word.now ≡ verdict_word v → ⊥) (λ v. word.now ≡ verdict_word v) }
{
    match word {
        b"free" => Some(Verdict::Free),
        b"blocked" => Some(Verdict::Blocked),
        _ => None,
    }
}

// What the next line says, if it is a first line.
fn read_check(lines: &mut Lines) -> Option<Check>
    ensures { MatchOption result
        ((k : Check) (more : List ℕ) → Opening lines.old.rest k more → ⊥)
        (λ k. Opening lines.old.rest k lines.new.rest) }
{
    let (name, word, greatest, held) = next_row(lines)?;
    if name != b"verdict".as_slice() {
        return None;
    }
    let verdict = read_verdict(word)?;
    let greatest = u32::from(read_number(greatest)?);
    let held = usize::from(read_number(held)?);
    Some(Check {
        verdict,
        numbering: Numbering { greatest, held },
    })
}

// What two fields say of a channel: one of them is a dash.
fn read_told(number: &[u8], place: &[u8]) -> Option<Told>
    ensures { MatchOption result
        ((word : ℕ) (place' : Option ℕ) → Said word place' → number.now ≡ mark (number_of word) → place.now ≡ mark place' → ⊥)
        (λ t. Said t.number (packet_in t.packet) × (number.now ≡ mark (number_of t.number)) × (place.now ≡ mark (packet_in t.packet))) }
{
    if place == b"-".as_slice() {
        let number = u32::from(read_number(number)?);
        return Some(Told {
            number,
            packet: LoadRecord::EMPTY,
        });
    }
    if number == b"-".as_slice() {
        let place = read_number(place)?;
        return Some(Told {
            number: HELD,
            packet: LoadRecord::holding(place),
        });
    }
    None
}

// What the next line says, if it is the line of the channel.
fn read_claim(lines: &mut Lines, channel: u16) -> Option<Told>
    requires { channel < 10000 }
    ensures { MatchOption result
        ((word : ℕ) (place : Option ℕ) (more : List ℕ) → Claim lines.old.rest channel word place more → ⊥)
        (λ t. Claim lines.old.rest channel t.number (packet_in t.packet) lines.new.rest) }
{
    let (name, own, number, place) = next_row(lines)?;
    if name != b"c".as_slice() {
        return None;
    }
    if read_number(own)? != channel {
        return None;
    }
    read_told(number, place)
}

// The lines of a file for so many channels.
fn read_lines(file: &[u8], channels: u16) -> Result<Claims, ResultFault>
    requires { channels ≤ 128 }
    ensures { MatchResult result
        (λ r. Begins file.now r.check channels r.numbers r.load [])
        (λ f. NoResult channels file.now (bad_number f) (bad_at f)) }
{
    let mut lines = Lines::new(file);
    let Some(check) = read_check(&mut lines) else {
        return Err(ResultFault::Line(1));
    };
    let mut numbers = [0; MAX_CHANNELS];
    let mut load = [LoadRecord::EMPTY; MAX_CHANNELS];
    for channel in 0..channels {
        let at = usize::from(channel);
        let Some(told) = read_claim(&mut lines, channel) else {
            return Err(ResultFault::Line(at + 2));
        };
        numbers[at] = told.number;
        load[at] = told.packet;
    }
    if lines.next().is_some() {
        return Err(ResultFault::Line(usize::from(channels) + 2));
    }
    Ok(Claims {
        check,
        numbers,
        load,
    })
}

// How many of the words say that a channel is held.
fn count_held(numbers: &[u32]) -> usize
    ensures { result ≡ count_held (length numbers.now) numbers.now }
{
    numbers.iter().filter(|word| **word == HELD).count()
}

// The greatest of the other words, or 0 where there is none.
fn greatest(numbers: &[u32]) -> u32
    ensures { Greatest (length numbers.now) numbers.now result }
{
    let mut greatest = 0;
    for word in numbers {
        if *word != HELD {
            greatest = greatest.max(*word);
        }
    }
    greatest
}

// The first line that agrees with the numbers of all channels.
fn agreeing(numbers: &[u32]) -> Check
    ensures { Agrees (length numbers.now) numbers.now result }
{
    let held = count_held(numbers);
    let verdict = if held == 0 {
        Verdict::Free
    } else {
        Verdict::Blocked
    };
    Check {
        verdict,
        numbering: Numbering {
            greatest: greatest(numbers),
            held,
        },
    }
}

/// What a file says of a network of so many channels, or why it is no result.
pub(super) fn read_result(file: &[u8], channels: u16) -> Result<Claims, ResultFault>
    requires { channels ≤ 128 }
    ensures { MatchResult result
        (λ r. IsResult channels file.now r.check r.numbers r.load)
        (λ f. NoResult channels file.now (bad_number f) (bad_at f)) }
{
    let claims = read_lines(file, channels)?;
    if claims.check != agreeing(&claims.numbers[..usize::from(channels)]) {
        return Err(ResultFault::Agreement);
    }
    Ok(claims)
}
