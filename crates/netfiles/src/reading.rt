//! Reading a network file into a table, or into a lent list of records.

ghost use Rattle.std.specs.Prelude.{◌≡◌, List, ◌++◌, length, drop};
ghost use Rattle.records.specs.declared.Record.{Record};
ghost use Rattle.records.specs.declared.Size.{Size};
ghost use Rattle.files.specs.Says.{Reads};
ghost use Rattle.netfiles.specs.Reading.{TableRead, Storable, Reading, OneReading, FirstTold, OnlyTable, OnlyReading};

use files::judging::Summary;
use files::reading::Reader;
use networks::faults::TableFault;
use records::Record;
use std::alloc::Global;
use tables::{Table, check_count};

/// A network file that was read.
#[derive(Drop)]
pub struct NetworkFile {
    /// The size that it says, and how many records it has.
    pub summary: Summary,
    /// The network that these draw.
    pub table: Table,
}

/// Reads a file with at most `room` records, and never more than a table takes, straight into a table.
#[tactic(auto, using(crate::proofs::Readings::one_reading))]
pub fn read_table(heap: Global, file: &[u8], room: usize) -> Result<NetworkFile, TableFault>
    ensures reading { TableRead file.now room result }
    ensures one { OneReading file.now room }
    ensures first { FirstTold file.now result }
    ensures only { OnlyTable file.now room result }
{
    let mut reader = Reader::new(file);
    let size = reader.size()?;
    let mut table = Table::blank(heap, size)?;
    let mut records = 0;
    // no `for`, since the reader is asked for its line in between
    while let Some(record) = reader.next() {
        table.add(reader.line(), record?)?;
        records += 1;
    }
    check_count(records, room)?;
    let summary = Summary { size, records };
    Ok(NetworkFile { summary, table })
}

// Puts the records of a file at the start of a list that has room for them.
fn store(file: &[u8], list: &mut [Record])
    requires { Storable file.now (length list.old) }
    ensures { (s : Size) (rs : List Record) → Reads file.now s rs → list.new ≡ rs ++ drop (length rs) list.old }
{
    // by position: of what is written through an adapter of `iter_mut` the proof would know nothing
    for (at, record) in Reader::new(file).map_while(Result::ok).enumerate() {
        list[at] = record;
    }
}

/// Reads a file and puts its records at the start of the list, in the order of the file. Answers the size and how many
/// records there are. A refusal leaves the list as it was.
#[tactic(auto, using(crate::proofs::Readings::one_reading))]
pub fn read_network(heap: Global, file: &[u8], list: &mut [Record]) -> Result<Summary, TableFault>
    ensures reading { Reading file.now list.old result list.new }
    ensures one { OneReading file.now (length list.old) }
    ensures first { FirstTold file.now result }
    ensures only { OnlyReading file.now list.old result list.new }
{
    let read = read_table(heap, file, list.len())?;
    store(file, list);
    Ok(read.summary)
}
