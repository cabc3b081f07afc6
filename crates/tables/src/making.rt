//! Making a table from records.

ghost use Rattle.std.specs.Prelude.{◌≡◌, ◌+◌, ◌*◌, ◌<◌, ◌≤◌, ◌⊎◌, vec_len, MatchResult};
ghost use Rattle.networks.specs.declared.faults.TableFault.TheVariants.{OutOfRange, TooManyRecords};
ghost use Rattle.tables.specs.Drawn.{pair_of};
ghost use Rattle.tables.specs.Makes.{limit, SizeFits, SizeMisfit, Begins, Adds, Makes, OneFault, OneMaking};
ghost use Rattle.tables.specs.Meaning.{meaning_of};

use crate::cell::Cell;
use crate::table::Table;
use networks::faults::TableFault;
use networks::pairs::Pair;
use records::{Record, Size};
use std::alloc::Global;

/// How many records a table takes at most.
pub const MAX_RECORDS: usize = 65_535;

// How many channels and places a network has at most.
const MAX_CHANNELS: u16 = 1024;

const MAX_PLACES: u16 = 256;

// The line on which the first record stands.
const FIRST_LINE: usize = 2;

// The places of the numbers in their line, counted from 1.
const CHANNEL_FIELD: usize = 2;

const PLACE_FIELD: usize = 3;

const NEXT_FIELD: usize = 4;

// Refuses a size outside the limits.
fn check_size(size: Size) -> Result<(), TableFault>
    ensures { MatchResult result (λ _. SizeFits size) (λ f. SizeMisfit size f) }
{
    if !(1..=MAX_CHANNELS).contains(&size.channels) {
        return Err(TableFault::SizeOutOfLimits {
            field: CHANNEL_FIELD,
        });
    }
    if !(1..=MAX_PLACES).contains(&size.places) {
        return Err(TableFault::SizeOutOfLimits { field: PLACE_FIELD });
    }
    Ok(())
}

/// Refuses more records than `room`, or than a table takes.
pub fn check_count(count: usize, room: usize) -> Result<(), TableFault>
    ensures { MatchResult result (λ _. count ≤ limit room) (λ f. (limit room < count) × (f ≡ TooManyRecords (limit room + 2))) }
{
    let most = room.min(MAX_RECORDS);
    if count > most {
        return Err(TableFault::TooManyRecords {
            line: most + FIRST_LINE,
        });
    }
    Ok(())
}

// The pair that a record speaks of.
fn pair_of(record: Record) -> Pair
    ensures { result ≡ pair_of «record» }
{
    match record {
        Record::Entry { channel, place }
        | Record::Home { channel, place }
        | Record::Way { channel, place, .. } => Pair { channel, place },
    }
}

impl Table {
    /// A table without records.
    pub fn blank(heap: Global, size: Size) -> Result<Table, TableFault>
        ensures { Begins size result }
    {
        check_size(size)?;
        let cells = vec![in heap; Cell::BLANK; size.pairs()]?;
        Ok(Table { size, cells })
    }

    // Where the cell of a record's pair stands. The record stands on the line.
    fn locate(&self, line: usize, pair: Pair) -> Result<usize, TableFault>
        ensures { MatchResult result
            (λ at. (pair.channel < self.now.size.channels) × (pair.place < self.now.size.places) × (at ≡ pair.channel * self.now.size.places + pair.place) × (at < vec_len self.now.cells))
            (λ f. ((f ≡ OutOfRange line 2) × (self.now.size.channels ≤ pair.channel)) ⊎ ((f ≡ OutOfRange line 3) × (pair.channel < self.now.size.channels) × (self.now.size.places ≤ pair.place))) }
    {
        if pair.channel >= self.size.channels {
            return Err(TableFault::OutOfRange {
                line,
                field: CHANNEL_FIELD,
            });
        }
        if pair.place >= self.size.places {
            return Err(TableFault::OutOfRange {
                line,
                field: PLACE_FIELD,
            });
        }
        Ok(self.position(pair))
    }

    /// Adds a record, which stands on the line. A refused record changes nothing.
    pub fn add(&mut self, line: usize, record: Record) -> Result<(), TableFault>
        ensures { Adds (meaning_of self.old) line «record» result (meaning_of self.new) }
    {
        let at = self.locate(line, pair_of(record))?;
        match record {
            Record::Entry { .. } => self.cells[at].entry = true,
            Record::Home { .. } => self.cells[at].home = true,
            Record::Way { next, .. } => {
                if next >= self.size.channels {
                    return Err(TableFault::OutOfRange {
                        line,
                        field: NEXT_FIELD,
                    });
                }
                self.cells[at]
                    .ways
                    .try_push(next)
                    .ok_or(TableFault::NinthWay { line })?;
            }
        }
        Ok(())
    }

    /// The table of a size and records. The first record stands on line 2.
    #[tactic(auto, using(crate::proofs::OneAnswer::one_fault, crate::proofs::OneAnswer::one_making))]
    pub fn new(heap: Global, size: Size, records: &[Record]) -> Result<Table, TableFault>
        ensures makes { Makes size records.now result }
        ensures one { OneFault size records.now }
        ensures making { OneMaking size records.now }
    {
        let mut table = Table::blank(heap, size)?;
        for (line, record) in (FIRST_LINE..).zip(records) {
            table.add(line, *record)?;
        }
        check_count(records.len(), MAX_RECORDS)?;
        Ok(table)
    }
}
