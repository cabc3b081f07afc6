//! The entry for an editor that is written in C: the bytes of a network file in, one number out.

#![tactic(auto)]

ghost use Rattle.std.specs.Prelude.{◌≡◌, ◌≤◌, [], length, Ok};
ghost use Rattle.networks.specs.Cleared.{AllZero};
ghost use Rattle.networks.specs.Secrecy.{Secret};
ghost use Rattle.tables.specs.Meaning.{meaning_of};
ghost use Rattle.loads.specs.Loads.{packet_in};
ghost use Rattle.editor.specs.Entry.{number_told, place_word, Places, word, with_place, Entered, FirstTold, Leaves};
ghost use Rattle.editor.specs.Steps.{OfNet, OfFile};

use checks::{Verdict, check};
use loads::LoadRecord;
use netfiles::read_table;
use networks::Network;
use networks::faults::StudyFault;
use networks::guard::Cleared;
use records::faults::{Fault, Parts};
use std::alloc::Global;
use tables::{MAX_RECORDS, Table};

// How many channels a network has at most.
const MAX_CHANNELS: usize = 1024;

// The word for a channel that holds no packet.
const NO_PLACE: u32 = u32::MAX;

// The word for what a channel holds.
fn place_word(held: LoadRecord) -> u32
    ensures { result ≡ place_word (packet_in held) }
{
    held.place().map_or(NO_PLACE, u32::from)
}

// Tells what the load has in the channels.
fn tell_places(load: &[LoadRecord], channels: usize, places: &mut [u32])
    requires records { channels ≤ length load.now }
    requires words { channels ≤ length places.old }
    ensures { Places channels load.now places.old places.new }
{
    for channel in 0..channels {
        places[channel] = place_word(load[channel]);
    }
}

// The word for a line or a field.
fn word(number: usize) -> u32
    ensures { result ≡ word number }
{
    u32::try_from(number).unwrap_or(u32::MAX)
}

// Tells the line and the field of a fault, as far as there is room.
fn tell_place(parts: Parts, fault: &mut [u32])
    ensures { fault.new ≡ with_place parts fault.old }
{
    if !fault.is_empty() {
        fault[0] = word(parts.line);
    }
    if fault.len() > 1 {
        fault[1] = word(parts.field);
    }
}

// The number that tells a verdict.
fn number_of(verdict: Verdict) -> u32
    ensures { result ≡ number_told (Ok verdict) }
{
    match verdict {
        Verdict::Free => 0,
        Verdict::Blocked => 1,
    }
}

// Checks the network of a table.
fn check_table(
    table: &Table,
    allowed: &mut [u8],
    numbers: &mut [u32],
    places: &mut [u32],
    work: &mut [u32],
) -> Result<Verdict, StudyFault>
    ensures checks { OfNet (meaning_of table.now) (record { allowed = allowed.old; numbers = numbers.old; places = places.old; fault = [] }) (length work.old) result (record { allowed = allowed.new; numbers = numbers.new; places = places.new; fault = [] }) }
    ensures cleared { AllZero work.new }
{
    let mut records = [LoadRecord::EMPTY; MAX_CHANNELS];
    let load = &mut records[..places.len().min(MAX_CHANNELS)];
    let check = check(table, allowed, numbers, load, work)?;
    tell_places(load, usize::from(table.channels()), places);
    Ok(check.verdict)
}

// Reads and checks the network of a file.
fn study(
    heap: Global,
    file: &[u8],
    allowed: &mut [u8],
    numbers: &mut [u32],
    places: &mut [u32],
    work: &mut [u32],
) -> Result<Verdict, StudyFault>
    ensures studies { OfFile file.now (record { allowed = allowed.old; numbers = numbers.old; places = places.old; fault = [] }) (length work.old) result (record { allowed = allowed.new; numbers = numbers.new; places = places.new; fault = [] }) }
    ensures cleared { AllZero work.new }
{
    let guard = Cleared { words: work };
    let read = read_table(heap, file, MAX_RECORDS)?;
    check_table(&read.table, allowed, numbers, places, guard.words)
}

/// Judges the network file of these bytes. Answers 0 if its network is free, 1 if it is blocked, and else the number of the
/// refusal. With a verdict, `allowed` has a byte for each pair, 1 if it is allowed and 0 if not; `numbers` a word for each channel,
/// its number, or 4,294,967,295 if it is held; `places` a word for each channel, the place of its packet in the blocked load, or
/// 4,294,967,295 if it has none. With a refusal these stay as they were, and the first two words of `fault`, as far as there are
/// so many, are its line and its field. The work area is all 0 at the end.
#[unsafe(no_mangle)]
pub extern "C" fn tenvarog_check(
    heap: Global,
    file: &[u8],
    allowed: &mut [u8],
    numbers: &mut [u32],
    places: &mut [u32],
    work: &mut [u32],
    fault: &mut [u32],
) -> u32
    ensures enters { Entered file.now (record { allowed = allowed.old; numbers = numbers.old; places = places.old; fault = fault.old }) (length work.old) result (record { allowed = allowed.new; numbers = numbers.new; places = places.new; fault = fault.new }) }
    ensures first { FirstTold file.now result }
    ensures cleared { AllZero work.new }
    ensures secret { Secret (Leaves file.now (record { allowed = allowed.old; numbers = numbers.old; places = places.old; fault = fault.old })) }
{
    match study(heap, file, allowed, numbers, places, work) {
        Ok(verdict) => number_of(verdict),
        Err(refusal) => {
            let parts = refusal.parts();
            tell_place(parts, fault);
            u32::from(parts.number)
        }
    }
}
