// Why a call is refused, and what an installer is shown of it.
ghost use Rattle.std.specs.Prelude.{◌≡◌, Some};
ghost use Rattle.contract.specs.Faults.{code};
ghost use Rattle.contract.specs.Shown.{layer_name, code_text};

use std::error::Error;
use std::fmt;

#[derive(Clone, Copy, PartialEq, Eq, Debug)]
pub enum Fault {
    // The line is no number of 1 to 13 digits.
    Unreadable,
    // The cap is not 1 to 20,000.
    Cap,
    // The memory or the number of needs is not 1 to 96, or an extra is longer than the memory below.
    Memory,
    // A need of the caller's is above its length times the cap: the first such length.
    OwnNeed(u32),
    // The allowance is above memory times cap.
    Allowance,
    // The floor is above the cap.
    Floor,
    // The contract below a layer recalls a level under the cap.
    NotNew,
    // The level is above the cap.
    AboveCap,
    // The level is below the lowest, which is given.
    BelowLowest(u32),
}

// The part of the rack that refuses.
#[derive(Clone, Copy, PartialEq, Eq, Debug)]
pub enum Layer {
    Text,
    Contract,
    List,
}

// A fault as it is shown: one row of the fault table, and what that row tells besides.
#[derive(Clone, Copy, PartialEq, Eq, Debug)]
pub struct Code {
    pub layer: Layer,
    // The table's own, to be shown: a program goes by the case of the fault.
    pub number: u32,
    pub detail: u64,
}

impl From<Fault> for Code {
    ghost from_gives = { λ fault c. c ≡ code fault };

    fn from(fault: Fault) -> Code {
        let (layer, number, detail) = match fault {
            Fault::Unreadable => (Layer::Text, 1, 0),
            Fault::Cap => (Layer::Contract, 3, 0),
            Fault::Memory => (Layer::Contract, 4, 0),
            Fault::OwnNeed(length) => (Layer::Contract, 5, u64::from(length)),
            Fault::Allowance | Fault::Floor => (Layer::Contract, 5, 0),
            Fault::NotNew => (Layer::Contract, 6, 0),
            Fault::AboveCap => (Layer::Contract, 7, 0),
            Fault::BelowLowest(lowest) => (Layer::Contract, 8, u64::from(lowest)),
        };
        Code {
            layer,
            number,
            detail,
        }
    }
}

impl Fault {
    // The row of the fault table.
    pub fn code(self) -> Code
        ensures { result ≡ code self }
    {
        Code::from(self)
    }
}

impl Layer {
    pub fn name(self) -> &'static str
        ensures { result.now ≡ layer_name self }
    {
        match self {
            Layer::Text => "text",
            Layer::Contract => "contract",
            Layer::List => "list",
        }
    }
}

impl fmt::Display for Layer {
    ghost output = { λ x. Some (layer_name x) };

    fn fmt<W: fmt::Write>(&self, f: &mut fmt::Formatter<W>) -> fmt::Result {
        write!(f, "{}", self.name())
    }
}

impl fmt::Display for Code {
    ghost output = { λ x. Some (code_text x) };

    fn fmt<W: fmt::Write>(&self, f: &mut fmt::Formatter<W>) -> fmt::Result {
        let Code {
            layer,
            number,
            detail,
        } = self;
        write!(f, "layer {layer} number {number} detail {detail}")
    }
}

// Written out, as `thiserror` derives no contract, and the bytes are promised.
impl fmt::Display for Fault {
    ghost output = { λ x. Some (code_text (code x)) };

    fn fmt<W: fmt::Write>(&self, f: &mut fmt::Formatter<W>) -> fmt::Result {
        write!(f, "{}", self.code())
    }
}

impl Error for Fault {}
