//! Faults of a file's text, and how the faults of all layers are told.

ghost use Rattle.std.specs.Prelude.{◌≡◌, Some};
ghost use Rattle.records.specs.Faults.{parts_of, OwnParts, word_of, told};
ghost use Rattle.records.specs.declared.faults.Parts.{Parts};

use std::error::Error;
use std::fmt;

/// The layer that a fault comes from.
#[derive(Clone, Copy, PartialEq, Eq, Debug)]
pub enum Layer {
    Text,
    Table,
    Study,
}

impl Layer {
    /// The layer's name, as faults are printed.
    pub fn word(self) -> &'static str
        ensures { result.now ≡ word_of self }
    {
        match self {
            Self::Text => "text",
            Self::Table => "table",
            Self::Study => "study",
        }
    }
}

impl fmt::Display for Layer {
    ghost output = { λ l. Some (word_of l) };

    fn fmt<W: fmt::Write>(&self, f: &mut fmt::Formatter<W>) -> fmt::Result {
        f.write_str(self.word())
    }
}

/// The parts by which a fault is told. Lines and fields count from 1.
#[derive(Clone, Copy, PartialEq, Eq, Debug)]
pub struct Parts {
    pub layer: Layer,
    pub number: u16,
    /// 0 where no line is meant.
    pub line: usize,
    /// 0 where the fault is the whole line's or no line's. Of a buffer that is too short it is the buffer's code.
    pub field: usize,
}

impl fmt::Display for Parts {
    ghost output = { λ p. Some (told p) };

    fn fmt<W: fmt::Write>(&self, f: &mut fmt::Formatter<W>) -> fmt::Result {
        let Parts {
            layer,
            number,
            line,
            field,
        } = *self;
        write!(f, "fault {layer} {number}, line {line}, field {field}")
    }
}

/// A fault of any layer.
pub trait Fault: Copy {
    /// The parts by which it is told.
    ghost parts: { Self → Parts };

    fn parts(self) -> Parts
        ensures { result ≡ parts self };

    fn layer(self) -> Layer
        ensures { result ≡ (parts self).layer }
    {
        self.parts().layer
    }

    fn number(self) -> u16
        ensures { result ≡ (parts self).number }
    {
        self.parts().number
    }

    /// The line, from 1 on, or 0 where no line is meant.
    fn line(self) -> usize
        ensures { result ≡ (parts self).line }
    {
        self.parts().line
    }

    /// The field of a line, from 1 on, the code of a buffer, or 0.
    fn field(self) -> usize
        ensures { result ≡ (parts self).field }
    {
        self.parts().field
    }
}

/// The first fault of a network file's text. Lines and fields count from 1.
#[derive(Clone, Copy, PartialEq, Eq, Debug)]
pub enum TextFault {
    /// The first line does not begin with the field `n`, or the file is empty.
    NoSize,
    /// The first field of a later line is no known letter.
    UnknownLetter { line: usize },
    /// A line has the wrong number of fields, or lacks its final byte 10.
    WrongShape { line: usize },
    /// A field is no number of one to four digits.
    NoNumber { line: usize, field: usize },
    /// A later line begins with the field `n` again.
    SizeAgain { line: usize },
}

impl Fault for TextFault {
    ghost parts = { parts_of };

    #[tactic(auto, using(crate::proofs::OwnParts::own_parts))]
    fn parts(self) -> Parts
        ensures parts { result ≡ parts_of self }
        ensures own { OwnParts self }
    {
        let (number, line, field) = match self {
            TextFault::NoSize => (10, 1, 1),
            TextFault::UnknownLetter { line } => (11, line, 1),
            TextFault::WrongShape { line } => (12, line, 0),
            TextFault::NoNumber { line, field } => (13, line, field),
            TextFault::SizeAgain { line } => (14, line, 1),
        };
        Parts {
            layer: Layer::Text,
            number,
            line,
            field,
        }
    }
}

impl fmt::Display for TextFault {
    ghost output = { λ f. Some (told (parts_of f)) };

    fn fmt<W: fmt::Write>(&self, f: &mut fmt::Formatter<W>) -> fmt::Result {
        TextFault::parts(*self).fmt(f)
    }
}

impl Error for TextFault {}
