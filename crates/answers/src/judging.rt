//! Judging a result file for the network of another file.

ghost use Rattle.std.specs.Prelude.{◌≡◌, ◌≤◌, ◌++◌, IfOk, Some, None, Option, option_map, string_bytes, MatchResult};
ghost use Rattle.networks.specs.declared.faults.StudyFault.{StudyFault};
ghost use Rattle.loads.specs.Loads.{packet_in};
ghost use Rattle.tables.specs.Meaning.{meaning_of};
ghost use Rattle.answers.specs.Prints.{Fits, EarlyTold};
ghost use Rattle.answers.specs.Rows.{bad_number, bad_at};
ghost use Rattle.answers.specs.Judgings.{result_line, both_line, both_lines, Judged, Refereed};
ghost use Rattle.answers.specs.Judgements.{ruling_line, Concludes, Refuses};
ghost use Rattle.answers.specs.declared.judging.Refusal.TheVariants.{Study, Result as OfResult};

use crate::results::{Claims, ResultFault, read_result};
use crate::{
    Findings, LIMIT, MAX_PAIRS, Mark, Told, certify_table, fault_line, take_table, told_of,
};
use checks::Verdict;
use judges::{LoadJudged, NumbersJudged, judge_load, judge_numbers};
use networks::faults::{Buffer, StudyFault};
use networks::pairs::Pair;
use std::alloc::{AllocError, Global};
use tables::Table;

/// What is judged of a result: its numbers, if it says that the network is free, and else its load.
#[derive(Clone, Copy, PartialEq, Eq, Debug)]
pub(super) enum Ruling {
    Numbers(NumbersJudged),
    Load(LoadJudged),
}

/// What is found of a network, what a result file says of it, and what is judged of that.
#[derive(Clone, Copy, PartialEq, Eq, Debug)]
pub(super) struct Judgement {
    pub findings: Findings,
    pub claims: Claims,
    pub ruling: Ruling,
}

/// Why there is nothing to judge.
#[derive(Clone, Copy, PartialEq, Eq, Debug)]
pub(super) enum Refusal {
    /// The network file is refused, or one of the files is too long.
    Study(StudyFault),
    /// The file is no result.
    Result(ResultFault),
}

impl From<StudyFault> for Refusal {
    ghost from_gives = { λ e r. r ≡ Study e };

    fn from(e: StudyFault) -> Refusal {
        Refusal::Study(e)
    }
}

impl From<ResultFault> for Refusal {
    ghost from_gives = { λ e r. r ≡ OfResult e };

    fn from(e: ResultFault) -> Refusal {
        Refusal::Result(e)
    }
}

// The line of a judgement.
fn ruling_line(heap: Global, ruling: Ruling) -> Result<String, AllocError>
    ensures { IfOk result (λ s. string_bytes s ≡ ruling_line ruling) }
{
    let (word, pair) = match ruling {
        Ruling::Numbers(NumbersJudged::Sound) => ("sound", None),
        Ruling::Numbers(NumbersJudged::Offends(pair)) => ("unsound", Some(pair)),
        Ruling::Load(LoadJudged::Blocked) => ("blocked", None),
        Ruling::Load(LoadJudged::Offends(pair)) => ("unblocked", Some(pair)),
        Ruling::Load(LoadJudged::NoPacket) => ("unblocked", None),
    };
    let channel = Mark(pair.map(|pair| u32::from(pair.channel)));
    let place = Mark(pair.map(|pair| u32::from(pair.place)));
    format!(in heap; "judge\t{word}\t{channel}\t{place}\n")
}

// The line of a channel: what we tell of it, and what the result file does.
fn both_line(heap: Global, channel: u16, ours: Told, theirs: Told) -> Result<String, AllocError>
    ensures { IfOk result (λ s. string_bytes s ≡ both_line channel ours.number (packet_in ours.packet) theirs.number (packet_in theirs.packet)) }
{
    format!(in heap; "c\t{channel}\t{ours}\t{theirs}\n")
}

// The line of a refused result file.
fn result_line(heap: Global, fault: ResultFault) -> Result<String, AllocError>
    ensures { IfOk result (λ s. string_bytes s ≡ result_line (bad_number fault) (bad_at fault)) }
{
    let number = fault.number();
    let line = fault.line();
    format!(in heap; "fault\tresult\t{number}\t{line}\t0\n")
}

// The lines of a judgement.
fn judgement_text(heap: Global, judgement: &Judgement) -> Result<String, AllocError>
    requires { judgement.now.findings.channels ≤ 128 }
    ensures { let a = judgement.now.findings in let r = judgement.now.claims in IfOk result
        (λ s. string_bytes s ≡ ruling_line judgement.now.ruling ++ both_lines a.numbers a.load r.numbers r.load a.channels) }
{
    let mut text = ruling_line(heap, judgement.ruling)?;
    for channel in 0..judgement.findings.channels {
        let ours = told_of(
            &judgement.findings.numbers,
            &judgement.findings.load,
            channel,
        );
        let theirs = told_of(&judgement.claims.numbers, &judgement.claims.load, channel);
        let line = both_line(heap, channel, ours, theirs)?;
        text.push_str(line.as_str())?;
    }
    Ok(text)
}

// Judges what a result file says of a network.
fn judge(table: &Table, claims: &Claims) -> Result<Ruling, StudyFault>
    requires { Fits table.now.size }
    ensures { let r = claims.now in MatchResult result (λ j. Judged (meaning_of table.now) r.check r.numbers r.load (ruling_line j)) (λ f. ⊥) }
{
    let mut allowed = [0u8; MAX_PAIRS];
    let mut work = [0u32; MAX_PAIRS];
    match claims.check.verdict {
        Verdict::Free => {
            let judged = judge_numbers(table, &mut allowed, &claims.numbers, &mut work)?;
            Ok(Ruling::Numbers(judged))
        }
        Verdict::Blocked => {
            let judged = judge_load(table, &mut allowed, &claims.load, &mut work)?;
            Ok(Ruling::Load(judged))
        }
    }
}

// What is found for both files, or why one is not taken.
fn conclude(heap: Global, input: &[u8], file: &[u8]) -> Result<Judgement, Refusal>
    ensures { MatchResult result (Concludes input.now file.now) (Refuses input.now file.now) }
{
    let table = take_table(heap, input)?;
    let findings = certify_table(&table)?;
    Buffer::File.check(file.len(), LIMIT)?;
    let claims = read_result(file, findings.channels)?;
    let ruling = judge(&table, &claims)?;
    Ok(Judgement {
        findings,
        claims,
        ruling,
    })
}

/// The text that netcheck prints for an input and a result file: what is judged of the result, and a line for each channel, or the fault
/// of one of them.
pub fn judge_result(heap: Global, input: &[u8], file: &[u8]) -> Result<String, AllocError>
    ensures refereed { IfOk result (λ s. Refereed input.now file.now (string_bytes s)) }
    ensures early { IfOk result (λ s. EarlyTold input.now (string_bytes s)) }
{
    match conclude(heap, input, file) {
        Ok(judgement) => judgement_text(heap, &judgement),
        Err(Refusal::Study(fault)) => fault_line(heap, fault),
        Err(Refusal::Result(fault)) => result_line(heap, fault),
    }
}
