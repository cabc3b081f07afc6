//! How numbers, loads and what judges answer are told.

use judges::{LoadJudged, NumbersJudged};
use loads::LoadRecord;
use networks::pairs::Pair;
use numbering::HELD;
use std::fmt;

/// Numbers: a space and each, or a dash for what is held.
#[derive(Clone, Copy)]
pub struct Numbers<'a>(pub &'a [u32]);

/// A load: a space and the place of each packet, or a dash.
#[derive(Clone, Copy)]
pub struct Places<'a>(pub &'a [LoadRecord]);

/// What a judge answers.
#[derive(Clone, Copy)]
pub enum Judged {
    Sound,
    Blocked,
    NoPacket,
    Offends(Pair),
}

impl From<NumbersJudged> for Judged {
    fn from(judged: NumbersJudged) -> Judged {
        match judged {
            NumbersJudged::Sound => Judged::Sound,
            NumbersJudged::Offends(pair) => Judged::Offends(pair),
        }
    }
}

impl From<LoadJudged> for Judged {
    fn from(judged: LoadJudged) -> Judged {
        match judged {
            LoadJudged::Blocked => Judged::Blocked,
            LoadJudged::NoPacket => Judged::NoPacket,
            LoadJudged::Offends(pair) => Judged::Offends(pair),
        }
    }
}

impl fmt::Display for Numbers<'_> {
    fn fmt<W: fmt::Write>(&self, f: &mut fmt::Formatter<W>) -> fmt::Result {
        for number in self.0 {
            match *number {
                HELD => f.write_str(" -")?,
                number => write!(f, " {number}")?,
            }
        }
        Ok(())
    }
}

impl fmt::Display for Places<'_> {
    fn fmt<W: fmt::Write>(&self, f: &mut fmt::Formatter<W>) -> fmt::Result {
        for record in self.0 {
            match record.place() {
                Some(place) => write!(f, " {place}")?,
                None => f.write_str(" -")?,
            }
        }
        Ok(())
    }
}

impl fmt::Display for Judged {
    fn fmt<W: fmt::Write>(&self, f: &mut fmt::Formatter<W>) -> fmt::Result {
        match self {
            Judged::Sound => f.write_str("sound"),
            Judged::Blocked => f.write_str("blocked"),
            Judged::NoPacket => f.write_str("no packet"),
            Judged::Offends(Pair { channel, place }) => {
                write!(f, "channel {channel} offends, place {place}")
            }
        }
    }
}
