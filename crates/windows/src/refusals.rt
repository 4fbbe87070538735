// Why a forecast, a verdict or a curve is refused.
ghost use Rattle.std.specs.Prelude.{◌≡◌, Some};
ghost use Rattle.contract.specs.Shown.{code_text};
ghost use Rattle.windows.specs.Refusals.{row};

use contract::{Code, Layer};
use std::error::Error;
use std::fmt;

#[derive(Clone, Copy, PartialEq, Eq, Debug)]
pub enum ListFault {
    // A level of a record is above the cap: the first such slot, counted from 1.
    AboveCap(u64),
    // A forecast goes over 192 slots, or past the end of the list.
    TooFar,
    // A record or a list has more than 65,535 places.
    TooLong,
}

impl From<ListFault> for Code {
    ghost from_gives = { λ fault c. c ≡ row fault };

    fn from(fault: ListFault) -> Code {
        let (layer, number, detail) = match fault {
            ListFault::AboveCap(slot) => (Layer::Contract, 7, slot),
            ListFault::TooFar => (Layer::List, 14, 0),
            ListFault::TooLong => (Layer::List, 15, 0),
        };
        Code {
            layer,
            number,
            detail,
        }
    }
}

impl ListFault {
    // The row of the fault table, as `code` of a `Fault` gives it; callers know it by this name.
    pub fn row(self) -> Code
        ensures { result ≡ row self }
    {
        Code::from(self)
    }
}

// Written out, as that of `Fault` is; one impl for both would be one for every type.
impl fmt::Display for ListFault {
    ghost output = { λ x. Some (code_text (row x)) };

    fn fmt<W: fmt::Write>(&self, f: &mut fmt::Formatter<W>) -> fmt::Result {
        write!(f, "{}", self.row())
    }
}

impl Error for ListFault {}
