//! What netcheck prints for an input.

#![tactic(auto)]

ghost use Rattle.std.specs.Prelude.{◌≡◌, ◌<◌, ◌≤◌, ◌⊎◌, ◌∷◌, ◌++◌, IfOk, Some, slice_index, string_bytes, MatchResult};
ghost use Rattle.networks.specs.declared.faults.Buffer.TheVariants.{File};
ghost use Rattle.networks.specs.declared.faults.StudyFault.TheVariants.{Short};
ghost use Rattle.networks.specs.Faults.{study_parts};
ghost use Rattle.networks.specs.Nets.{Net};
ghost use Rattle.loads.specs.Loads.{packet, packet_in};
ghost use Rattle.answers.specs.Prints.{fault_line, mark, number_of, channel_line, verdict_line, verdict_text, Fits, Finds, Takes, Accepts, Rejects, Starves, Answered, EarlyTold};
ghost use Rattle.tables.specs.Meaning.{meaning_of};

mod judging;
mod results;

pub use crate::judging::judge_result;
use certificates::{Certificate, certify};
use checks::Check;
use loads::LoadRecord;
use netfiles::read_table;
use networks::Network;
use networks::faults::{Buffer, StudyFault};
use numbering::{HELD, Numbering};
use records::Size;
use records::faults::{Fault, Parts};
use std::alloc::{AllocError, Global};
use std::fmt;
use tables::Table;

/// How many bytes of input are read at most.
pub const LIMIT: usize = 32_768;

// How many records, channels and places a file has at most.
const MAX_RECORDS: usize = 2_048;

const MAX_CHANNELS: usize = 128;

const MAX_PLACES: u16 = 32;

const MAX_PAIRS: usize = 4_096;

// What is found of a network.
#[derive(Clone, Copy, PartialEq, Eq, Debug)]
struct Findings {
    certificate: Certificate,
    channels: u16,
    numbers: [u32; MAX_CHANNELS],
    load: [LoadRecord; MAX_CHANNELS],
}

// A number if there is one, and else a dash.
#[derive(Clone, Copy, PartialEq, Eq, Debug)]
struct Mark(Option<u32>);

impl fmt::Display for Mark {
    ghost output = { λ m. Some (mark m.0) };

    fn fmt<W: fmt::Write>(&self, f: &mut fmt::Formatter<W>) -> fmt::Result {
        match self.0 {
            Some(number) => number.fmt(f),
            None => f.write_str("-"),
        }
    }
}

// The line that tells a fault.
fn fault_line(heap: Global, fault: StudyFault) -> Result<String, AllocError>
    ensures { IfOk result (λ s. string_bytes s ≡ fault_line (study_parts fault)) }
{
    let Parts {
        layer,
        number,
        line,
        field,
    } = fault.parts();
    format!(in heap; "fault\t{layer}\t{number}\t{line}\t{field}\n")
}

// The line that tells the verdict.
fn verdict_line(heap: Global, check: Check) -> Result<String, AllocError>
    ensures { IfOk result (λ s. string_bytes s ≡ verdict_line check) }
{
    let verdict = check.verdict;
    let Numbering { greatest, held } = check.numbering;
    format!(in heap; "verdict\t{verdict}\t{greatest}\t{held}\n")
}

// What is told of a channel: its number, and its packet in a blocked load.
#[derive(Clone, Copy, PartialEq, Eq, Debug)]
struct Told {
    number: u32,
    packet: LoadRecord,
}

impl fmt::Display for Told {
    ghost output = { λ t. Some (mark (number_of t.number) ++ (9 ∷ mark (packet_in t.packet))) };

    fn fmt<W: fmt::Write>(&self, f: &mut fmt::Formatter<W>) -> fmt::Result {
        let number = Mark((self.number != HELD).then_some(self.number));
        let place = Mark(self.packet.place().map(u32::from));
        write!(f, "{number}\t{place}")
    }
}

// What is told of one channel.
fn told_of(numbers: &[u32; MAX_CHANNELS], load: &[LoadRecord; MAX_CHANNELS], channel: u16) -> Told
    requires { channel < 128 }
    ensures number { result.number ≡ slice_index numbers.now channel }
    ensures packet { packet_in result.packet ≡ packet load.now channel }
{
    let position = usize::from(channel);
    Told {
        number: numbers[position],
        packet: load[position],
    }
}

// The line that tells of a channel its number, and the place of its packet in the blocked load.
fn channel_line(heap: Global, channel: u16, told: Told) -> Result<String, AllocError>
    ensures { IfOk result (λ s. string_bytes s ≡ channel_line channel told.number (packet_in told.packet)) }
{
    format!(in heap; "c\t{channel}\t{told}\n")
}

// The lines that tell what was found.
fn verdict_text(heap: Global, findings: &Findings) -> Result<String, AllocError>
    requires { findings.now.channels ≤ 128 }
    ensures { IfOk result (λ s. string_bytes s ≡ verdict_text findings.now) }
{
    let mut text = verdict_line(heap, findings.certificate.check)?;
    for channel in 0..findings.channels {
        let told = told_of(&findings.numbers, &findings.load, channel);
        let line = channel_line(heap, channel, told)?;
        text.push_str(line.as_str())?;
    }
    Ok(text)
}

// Refuses a network that is too large.
fn check_size(size: Size) -> Result<(), StudyFault>
    ensures { MatchResult result (λ _. Fits size) (λ f. (Fits size → ⊥) × (f ≡ Short File)) }
{
    if usize::from(size.channels) > MAX_CHANNELS || size.places > MAX_PLACES {
        return Err(StudyFault::Short(Buffer::File));
    }
    Ok(())
}

// Certifies a network that is not too large.
fn certify_table(table: &Table) -> Result<Findings, StudyFault>
    requires { Fits table.now.size }
    ensures { MatchResult result (Finds (meaning_of table.now)) (λ f. ⊥) }
{
    let mut allowed = [0u8; MAX_PAIRS];
    let mut numbers = [0u32; MAX_CHANNELS];
    let mut load = [LoadRecord::EMPTY; MAX_CHANNELS];
    let mut longest = [0u32; MAX_PAIRS];
    let mut work = [0u32; MAX_PAIRS];
    let certificate = certify(
        table,
        &mut allowed,
        &mut numbers,
        &mut load,
        &mut longest,
        &mut work,
    )?;
    Ok(Findings {
        certificate,
        channels: table.channels(),
        numbers,
        load,
    })
}

// The table of the network file in an input, or why it is not taken.
fn take_table(heap: Global, input: &[u8]) -> Result<Table, StudyFault>
    ensures { MatchResult result (λ t. Takes input.now (meaning_of t) × Fits t.size) (λ f. Rejects input.now f ⊎ Starves input.now f) }
{
    Buffer::File.check(input.len(), LIMIT)?;
    let read = read_table(heap, input, MAX_RECORDS)?;
    check_size(read.summary.size)?;
    Ok(read.table)
}

// What is found of the network file in an input, or why it is not taken.
fn study(heap: Global, input: &[u8]) -> Result<Findings, StudyFault>
    ensures { MatchResult result (λ a. (n : Net) × Accepts input.now n a) (λ f. Rejects input.now f ⊎ Starves input.now f) }
{
    let table = take_table(heap, input)?;
    certify_table(&table)
}

/// The text that netcheck prints for an input: the verdict and a line for each channel, or the fault.
pub fn answer(heap: Global, input: &[u8]) -> Result<String, AllocError>
    ensures answered { IfOk result (λ s. Answered input.now (string_bytes s)) }
    ensures early { IfOk result (λ s. EarlyTold input.now (string_bytes s)) }
{
    match study(heap, input) {
        Ok(findings) => verdict_text(heap, &findings),
        Err(fault) => fault_line(heap, fault),
    }
}
