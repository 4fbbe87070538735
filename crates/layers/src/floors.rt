// The floor: every slot of a window is owed at least so much.
ghost use Rattle.std.specs.Prelude.{◌≡◌, IfOk, IfErr, MatchResult, nat_lt, None};
ghost use Rattle.contract.specs.Faults.{contract_fault, refusal, refuse_if};
ghost use Rattle.contract.specs.Meaning.{New};
ghost use Rattle.layers.specs.Layers.{Answers, FloorFault, floored, floor_refusal, floor_need};
ghost use Rattle.layers.specs.Laid.{floor_most};

use crate::over::{Over, Returned};
use crate::own::OwnNeeds;
use contract::{Contract, Fault};

// So much energy for each slot, and never more than the cap.
#[derive(Clone, Copy)]
pub struct EachSlot {
    energy: u32,
}

pub type Floor<C> = Over<C, EachSlot>;

impl EachSlot {
    fn new(cap: u32, energy: u64) -> Result<EachSlot, Fault>
        ensures answer { refusal result ≡ refuse_if (nat_lt «cap» energy) (contract_fault 5 0) None }
        ensures fault { IfErr result FloorFault }
        ensures made { IfOk result (λ s. s.energy ≡ energy) }
    {
        if energy > u64::from(cap) {
            return Err(Fault::Floor);
        }
        Ok(EachSlot {
            energy: energy as u32,
        })
    }
}

impl OwnNeeds for EachSlot {
    const LETTER: char = 'F';

    ghost LETTER = { 70 };

    ghost own = { λ s top k. floor_need top s.energy k };

    ghost most = { λ s top k. floor_most top s.energy k };

    fn own_need(&self, cap: u32, length: u32) -> u64 {
        u64::from(length) * u64::from(self.energy.min(cap))
    }
}

impl<C: Contract> Over<C, EachSlot> {
    // Refuses a floor above the cap, and a contract that recalls a level under it.
    pub fn new(below: C, floor: u64) -> Result<Floor<C>, Returned<C>>
        ensures answer { Answers result (floor_refusal (C.meaning below) floor) }
        ensures fault { IfErr result (λ e. FloorFault e.fault) }
        ensures made { MatchResult result (λ s. (s.below ≡ below) × (s.own.energy ≡ floor)) (λ e. e.contract ≡ below) }
        ensures begun { IfOk result (λ s. New (floored (C.meaning s.below) s.own.energy)) }
    {
        let own = EachSlot::new(below.cap(), floor);
        Over::lay(below, own)
    }
}
