//! How loads are told.

use loads::LoadRecord;
use std::fmt;

/// A load: a space and the place of each packet, or a dash.
#[derive(Clone, Copy)]
pub struct Places<'a>(pub &'a [LoadRecord]);

impl fmt::Display for Places<'_> {
    fn fmt<W: fmt::Write>(&self, f: &mut fmt::Formatter<W>) -> fmt::Result {
        for record in self.0 {
            match record.place() {
                Some(place) => write!(f, " {place}")?,
                None => f.write_str(" -")?,
            }
        }
        Ok(())
    }
}
