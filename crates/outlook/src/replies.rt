// What the program says, a line each.
ghost use Rattle.std.specs.Prelude.{Some};
ghost use Rattle.outlook.specs.Lines.{reply_text};

use std::fmt;
use windows::{ListFault, Verdict};

#[derive(Clone, Copy)]
pub enum Reply {
    // What every evening says.
    Said(evening::Reply),
    // How many slots are forecast, and the least energy that they can bring.
    Foresees(u64, u32),
    // A slot still to come, counted from 1, and its level in the forecast.
    Ahead(u64, u32),
    // Whether the levels granted kept the contract.
    Judges(Verdict),
    // Why they are not judged.
    Unjudged(ListFault),
}

impl fmt::Display for Reply {
    ghost output = { λ x. Some (reply_text x) };

    fn fmt<W: fmt::Write>(&self, f: &mut fmt::Formatter<W>) -> fmt::Result {
        match self {
            Reply::Said(reply) => write!(f, "{reply}"),
            Reply::Foresees(slots, energy) => write!(f, "forecast {slots} energy {energy}"),
            Reply::Ahead(slot, level) => write!(f, "ahead {slot} level {level}"),
            Reply::Judges(verdict) => write!(f, "verdict {verdict}"),
            Reply::Unjudged(fault) => write!(f, "verdict none {fault}"),
        }
    }
}
