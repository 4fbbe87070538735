// Laying needs of their own over a contract.
ghost use Rattle.std.specs.Prelude.{◌≡◌, ◌⊎◌, Ok, Err, IfOk, IfErr, MatchResult};
ghost use Rattle.contract.specs.declared.faults.Fault.TheVariants.{NotNew};
ghost use Rattle.contract.specs.Faults.{refusal, or_else};
ghost use Rattle.contract.specs.Meaning.{New};
ghost use Rattle.layers.specs.Layers.{any_under, layered, recalled_refusal};

use crate::own::OwnNeeds;
use contract::{Contract, Fault};

// A contract that owes what the one below owes, and no less than its own needs.
#[derive(Drop)]
pub struct Over<C, N> {
    below: C,
    own: N,
}

// A refused laying: why, and the contract that was to lie below.
#[derive(Drop)]
pub struct Returned<C> {
    pub fault: Fault,
    pub contract: C,
}

// For `?` where the contract below is not wanted back.
impl<C: Drop> From<Returned<C>> for Fault {
    ghost from_gives = { λ e r. r ≡ e.fault };

    fn from(returned: Returned<C>) -> Fault {
        returned.fault
    }
}

// Whether a recalled level is under the cap, as on no new contract.
fn recalls_under_cap<C: Contract>(contract: &C) -> bool
    ensures { result ≡ any_under (C.meaning contract.now).«cap» (C.meaning contract.now).recall }
{
    let cap = contract.cap();
    (1..contract.memory()).any(|slots| contract.back(slots) < cap)
}

impl<C: Contract, N: OwnNeeds + Drop> Over<C, N> {
    ghost use Rattle.layers.specs.Layers.{Answers};

    // Needs that were refused, or a contract that recalls a level under the cap, make no layer. Both kinds of `new` hand on
    // these clauses in their own words.
    pub fn lay(below: C, own: Result<N, Fault>) -> Result<Over<C, N>, Returned<C>>
        ensures answer { Answers result (or_else (refusal own) (recalled_refusal (C.meaning below))) }
        ensures fault { IfErr result (λ e. (own ≡ Err e.fault) ⊎ (e.fault ≡ NotNew)) }
        ensures made { MatchResult result (λ s. (s.below ≡ below) × (own ≡ Ok s.own)) (λ e. e.contract ≡ below) }
        ensures begun { IfOk result (λ s. New (layered (C.meaning s.below) (N.own s.own (C.meaning s.below).«cap»))) }
    {
        // A `match`: the contract below goes one way or the other, and two closures could not both take it.
        let fault = match own {
            Err(fault) => fault,
            Ok(_) if recalls_under_cap(&below) => Fault::NotNew,
            Ok(own) => return Ok(Over { below, own }),
        };
        Err(Returned {
            fault,
            contract: below,
        })
    }
}

impl<C: Contract, N: OwnNeeds> Contract for Over<C, N> {
    ghost use Rattle.layers.specs.Layering.{limits_layered};

    const LETTER: char = N::LETTER;

    ghost LETTER = { N.OwnNeeds.LETTER };

    ghost meaning = { λ s.
        let m = C.Contract.meaning s.below in
        layered m (N.OwnNeeds.own s.own m.«cap») };

    ghost limits = { λ s.
        let m = C.Contract.meaning s.below in
        limits_layered m (N.OwnNeeds.own s.own m.«cap») (C.Contract.limits s.below) (λ k low high. N.OwnNeeds.most s.own m.«cap» k) };

    fn cap(&self) -> u32 {
        self.below.cap()
    }

    fn memory(&self) -> u32 {
        self.below.memory()
    }

    fn need(&self, length: u32) -> u32 {
        if length > self.below.memory() {
            return 0;
        }
        let own = self.own.own_need(self.below.cap(), length);
        self.below.need(length).max(own as u32)
    }

    fn back(&self, slots: u32) -> u32 {
        self.below.back(slots)
    }

    fn grant(&mut self, level: u64) -> Result<(), Fault> {
        self.admit(level)?;
        self.below.grant(level)
    }
}
