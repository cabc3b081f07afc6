//! netcheck: a network file on standard input, its answer on standard output.

#![tactic(auto)]

ghost use Rattle.std.specs.Prelude.{◌≡◌, ℕ, List, ◌+◌, ◌≤◌, length, take, IfOk, IfSome, string_bytes};
ghost use Rattle.answers.specs.Judgings.{Refereed};
ghost use Rattle.answers.specs.Prints.{most_bytes, Answered};

use answers::{LIMIT, answer, judge_result};
use anyhow::{Context, Result, bail};
use std::alloc::Global;
use std::fs::File;
use std::io::{Read, Write};
use std::process::ExitCode;
use std::{env, io};

const USAGE: &str = "\
netcheck: checks a network file for deadlock

usage: netcheck < FILE
       netcheck --judge RESULT < FILE
       netcheck --help

Reads a network file from standard input and prints a verdict, and then a line for each channel:
  verdict  free|blocked  GREATEST  HELD      whether packets can block each other; the greatest
                                             number of a channel; how many channels are held
  c  CHANNEL  NUMBER  PLACE                  the channel's number, or - if it is held; the place of
                                             its packet in the blocked load, or -
or, if it refuses the file, one line:
  fault  LAYER  NUMBER  LINE  FIELD
With --judge it also reads RESULT, which says of the network what netcheck prints of one, and prints
what is judged of its numbers or, if it says blocked, of its load, and then a line for each channel:
  judge  sound|unsound|blocked|unblocked  CHANNEL  PLACE     the channel that offends and its place
  c  CHANNEL  NUMBER  PLACE  NUMBER  PLACE                   ours, and those of RESULT
or, if it refuses one of the files, one line as above.
The fields are parted by tabs. At most 32,768 bytes, 2,048 records, 128 channels and 32 places.
docs/FORMAT.md has the format, docs/RULES.md what the numbers mean, docs/REFUSALS.md the faults.
The exit status is 0 for all these answers, and 1 where the system fails.
";

// How many bytes are read at most: one more than the limit tells an input that is too long.
const MAX_READ: usize = LIMIT + 1;

// Reads until the input ends or the buffer is full, and answers how much of the buffer is filled. It takes no memory, and each read
// is offered all that is left of the buffer, since an input that comes in messages loses what a read has no room for.
fn read_input<R: Read>(input: &mut R, buffer: &mut [u8]) -> io::Result<usize>
    ensures bound { IfOk result (λ n. n ≤ length buffer.old) }
    ensures bytes { IfOk result (λ n. IfSome (R.remaining input.old) (λ bytes. take n buffer.new ≡ take (length buffer.old) bytes)) }
{
    let mut len = 0;
    while len < buffer.len() {
        let n = input.read(&mut buffer[len..])?;
        if n == 0 {
            return Ok(len);
        }
        len += n;
    }
    Ok(len)
}

// Reads a file to its end, or so many bytes of it.
fn read_file(rt: &HostRuntime, path: &str) -> io::Result<Vec<u8>> {
    let mut bytes = Vec::new(rt.alloc());
    File::open(rt, path)?
        .take(MAX_READ as u64)
        .read_to_end(&mut bytes)?;
    Ok(bytes)
}

// The answer to all of the input, however long it is.
fn answer_input<R: Read>(heap: Global, input: &mut R, buffer: &mut [u8; MAX_READ]) -> Result<String>
    ensures { IfOk result (λ s. IfSome (R.remaining input.old) (λ bytes. Answered bytes (string_bytes s))) }
{
    let len = read_input(input, buffer)?;
    Ok(answer(heap, &buffer[..len])?)
}

// What is judged of a result file for all of the input. Of a file that is cut off behind the first byte too many, it is what is judged of the
// whole file.
fn judge_input<R: Read>(
    heap: Global,
    input: &mut R,
    buffer: &mut [u8; MAX_READ],
    file: &[u8],
) -> Result<String>
    ensures { IfOk result (λ s. IfSome (R.remaining input.old) (λ bytes. (whole : List ℕ) → file.now ≡ take (most_bytes + 1) whole → Refereed bytes whole (string_bytes s))) }
{
    let len = read_input(input, buffer)?;
    Ok(judge_result(heap, &buffer[..len], file)?)
}

fn check_input(rt: &HostRuntime) -> Result<()> {
    let mut buffer = [0; MAX_READ];
    let text = answer_input(rt.alloc(), &mut rt.stdin(), &mut buffer)?;
    rt.stdout().write_all(text.as_bytes())?;
    Ok(())
}

fn judge_file(rt: &HostRuntime, path: &str) -> Result<()> {
    let file = read_file(rt, path).context(format_args!("{path}"))?;
    let mut buffer = [0; MAX_READ];
    let text = judge_input(rt.alloc(), &mut rt.stdin(), &mut buffer, file.as_slice())?;
    rt.stdout().write_all(text.as_bytes())?;
    Ok(())
}

fn run(rt: &HostRuntime) -> Result<()> {
    let mut words = env::args(rt)?.skip(1);
    let Some(word) = words.next() else {
        return check_input(rt);
    };
    match (word.as_str(), words.next(), words.next()) {
        ("--help", None, None) => {
            rt.stdout().write_all(USAGE.as_bytes())?;
            Ok(())
        }
        ("--judge", Some(path), None) => judge_file(rt, path.as_str()),
        _ => bail!("unknown arguments; netcheck --help tells how it is used"),
    }
}

fn main(rt: HostRuntime) -> ExitCode {
    match run(&rt) {
        Ok(()) => ExitCode::SUCCESS,
        Err(e) => {
            let _ = eprintln!(rt; "netcheck: {e:#}");
            ExitCode::FAILURE
        }
    }
}
