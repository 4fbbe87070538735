// What the evening's contract is made of.
ghost use Rattle.std.specs.Prelude.{◌≡◌, [], ◌∷◌, IfOk};
ghost use Rattle.contract.specs.Faults.{refusal};
ghost use Rattle.contract.specs.Meaning.{New, memory};
ghost use Rattle.evening.specs.declared.replies.Reply.TheVariants.{Begins};

use crate::replies::Reply;
use contract::{Contract, Fault};
use kinds::Switch;
use layers::Floor;

// The numbers of a floor over a switch.
#[derive(Clone, Copy)]
pub struct Terms {
    pub cap: u64,
    pub memory: u64,
    pub allowance: u64,
    pub floor: u64,
}

// In the order of the command line.
impl From<[u64; 4]> for Terms {
    ghost from_gives = { λ numbers terms. numbers ≡ terms.«cap» ∷ (terms.memory ∷ (terms.allowance ∷ (terms.floor ∷ []))) };

    fn from([cap, memory, allowance, floor]: [u64; 4]) -> Terms {
        Terms {
            cap,
            memory,
            allowance,
            floor,
        }
    }
}

impl Terms {
    ghost use Rattle.evening.specs.Agreed.{agreed, terms_refusal};

    // The contract, or why there is none.
    pub fn agree(self) -> Result<Floor<Switch>, Fault>
        ensures answer { refusal result ≡ terms_refusal self }
        ensures made { IfOk result (λ s. ⟦<Floor<Switch> as Contract>⟧.meaning s ≡ agreed self) }
        ensures begun { IfOk result (λ s. New (⟦<Floor<Switch> as Contract>⟧.meaning s)) }
    {
        let switch = Switch::new(self.cap, self.memory, self.allowance)?;
        Ok(Floor::new(switch, self.floor)?)
    }
}

// How the evening begins: the letter of the kind below the floor, and the memory.
pub fn opening(contract: &Floor<Switch>) -> Reply
    ensures { result ≡ Begins 83 (memory (⟦<Floor<Switch> as Contract>⟧.meaning contract.now)) }
{
    Reply::Begins(Switch::LETTER, contract.memory())
}
