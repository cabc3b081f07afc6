//! Writing a size and records as a network file.

ghost use Rattle.std.specs.Prelude.{◌≡◌, ◌+◌, ◌*◌, ◌≤◌, length};
ghost use Rattle.std.specs.List.{flat_map, sum_by};
ghost use Rattle.records.specs.Rendering.{file_text, finished, record_text, AllSmall};
ghost use Rattle.records.specs.Writes.{Wrote};
ghost use Rattle.tables.specs.Makes.{most};
ghost use Rattle.netfiles.specs.Writing.{Writing, SizeTold, OnlyWriting};

use networks::faults::{Buffer, StudyFault};
use records::writing::Statement;
use records::{Record, Size};
use std::alloc::Global;
use tables::Table;

// How many bytes the lines of the records take.
fn lines_len(records: &[Record]) -> usize
    requires { length records.now ≤ most }
    ensures { result ≡ sum_by (λ r. length (finished (record_text r))) records.now }
{
    records.iter().map(|r| r.text_len()).sum()
}

// How many bytes the file takes.
fn text_len(size: Size, records: &[Record]) -> usize
    requires few { length records.now ≤ most }
    requires small { AllSmall records.now }
    ensures { result ≡ length (file_text size records.now) }
{
    size.text_len() + lines_len(records)
}

// Writes each record's line behind the one before, from `at` on, and answers where the last one ends.
fn write_records(records: &[Record], file: &mut [u8], at: usize) -> usize
    requires small { AllSmall records.now }
    requires room { at + length (flat_map (λ q. finished (record_text q)) records.now) ≤ length file.old }
    ensures { Wrote (flat_map (λ q. finished (record_text q)) records.now) at file.old file.new result }
{
    // a fold would need a closure that changes the file, and is no plainer
    let mut end = at;
    for record in records {
        end = record.write(file, end).unwrap();
    }
    end
}

/// Writes a size and records as a network file from the start of the lent bytes, and answers where it ends. Records that
/// make no table are refused as making one refuses them. A refusal writes nothing.
#[tactic(auto, using(crate::proofs::WrittenLines::all_small))]
pub fn write_network(
    heap: Global,
    size: Size,
    records: &[Record],
    file: &mut [u8],
) -> Result<usize, StudyFault>
    ensures writing { Writing size records.now file.old result file.new }
    ensures size { SizeTold size result }
    ensures only { OnlyWriting size records.now file.old result file.new }
{
    // making the table judges the records
    Table::new(heap, size, records)?;
    Buffer::File.check(text_len(size, records), file.len())?;
    let end = size.write(file, 0).unwrap();
    Ok(write_records(records, file, end))
}
