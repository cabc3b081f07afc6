//! Writing a network file anew from what it says.

ghost use Rattle.std.specs.Prelude.{◌≡◌};
ghost use Rattle.files.specs.Rewrites.{Rewrites, OnlyRewrites};
ghost use Rattle.files.specs.declared.rewriting.RewriteFault.TheVariants.{Text, Line};

use crate::judging::judge;
use crate::reading::Reader;
use records::faults::TextFault;
use records::writing::{Statement, WriteFault};

/// Why a file was not written anew.
#[derive(Clone, Copy, PartialEq, Eq, Debug)]
pub enum RewriteFault {
    /// The file has a fault.
    Text(TextFault),
    /// A line was not written.
    Line(WriteFault),
}

// The conversions are written by hand, since promises name the error and a derived one has no contract.
impl From<TextFault> for RewriteFault {
    ghost from_gives = { λ e r. r ≡ Text e };

    fn from(e: TextFault) -> RewriteFault {
        RewriteFault::Text(e)
    }
}

impl From<WriteFault> for RewriteFault {
    ghost from_gives = { λ e r. r ≡ Line e };

    fn from(e: WriteFault) -> RewriteFault {
        RewriteFault::Line(e)
    }
}

/// Reads a file and writes what it says into `out`, from its start on: the same bytes. Answers where they end. A refusal
/// writes nothing.
pub fn rewrite(file: &[u8], out: &mut [u8]) -> Result<usize, RewriteFault>
    ensures rewrites { Rewrites file.now out.old result out.new }
    ensures only { OnlyRewrites file.now out.old result out.new }
{
    judge(file)?;
    if out.len() < file.len() {
        return Err(RewriteFault::Line(WriteFault::NoRoom));
    }
    let reader = Reader::new(file);
    let size = reader.size()?;
    let mut end = size.write(out, 0)?;
    for record in reader {
        end = record?.write(out, end)?;
    }
    Ok(end)
}
