//! Judging the text of a whole network file.

ghost use Rattle.files.specs.Answers.{Answers, Sole};

use crate::reading::Reader;
use records::Size;
use records::faults::TextFault;

/// What an accepted file holds.
#[derive(Clone, Copy, PartialEq, Eq, Debug)]
pub struct Summary {
    pub size: Size,
    pub records: usize,
}

/// The size and the number of records of a file, or its first fault.
pub fn judge(file: &[u8]) -> Result<Summary, TextFault>
    ensures answers { Answers file.now result }
    ensures sole { Sole file.now result }
{
    let reader = Reader::new(file);
    let size = reader.size()?;
    let mut records = 0;
    for record in reader {
        record?;
        records += 1;
    }
    Ok(Summary { size, records })
}
