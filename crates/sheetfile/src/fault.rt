// A refusal that was met in a file.
ghost use Rattle.std.specs.Prelude.{◌≡◌, Some};
ghost use Rattle.sheetfile.specs.Drawn.{meeting, meeting_text, named_in};

use faults::Fault;
use std::error::Error;
use std::fmt;

#[derive(Clone, Copy, Debug, PartialEq, Eq)]
pub struct FileFault {
    pub fault: Fault,
    // the record where it was met, if one is named
    pub record: Option<usize>,
}

// With the record that the fault names itself.
impl From<Fault> for FileFault {
    ghost from_gives = { λ x y. meeting y ≡ named_in x };

    fn from(fault: Fault) -> FileFault {
        FileFault {
            fault,
            record: fault.record(),
        }
    }
}

impl fmt::Display for FileFault {
    ghost output = { λ f. Some (meeting_text (meeting f)) };

    fn fmt<W: fmt::Write>(&self, f: &mut fmt::Formatter<W>) -> fmt::Result {
        let (number, record) = (self.fault.number(), self.record.unwrap_or(0));
        write!(f, "refused {number} record {record}")
    }
}

impl Error for FileFault {}
