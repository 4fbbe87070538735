// An evening on one contract.
ghost use Rattle.std.specs.Prelude.{◌≡◌, MatchResult};
ghost use Rattle.contract.specs.Faults.{code};
ghost use Rattle.contract.specs.Meaning.{lowest};
ghost use Rattle.evening.specs.declared.replies.Reply.TheVariants.{Ends};

use crate::numerals::level_of;
use crate::replies::Reply;
use contract::{Contract, Fault};
use curve::dispatch;

#[derive(Drop)]
pub struct Evening<C> {
    contract: C,
    // How many slots were granted, and their energy; both stop at the largest number.
    slots: u64,
    energy: u64,
}

impl<C: Contract> Evening<C> {
    ghost use Rattle.evening.specs.Evenings.{GrantedLine, RefusedLine, Replies, after_grant, booked};

    pub fn new(contract: C) -> Evening<C>
        ensures { (result.contract ≡ contract) × (result.slots ≡ 0) × (result.energy ≡ 0) }
    {
        Evening {
            contract,
            slots: 0,
            energy: 0,
        }
    }

    // Asks for the level that the line writes. A refused line changes nothing.
    fn ask(&mut self, line: &[u8]) -> Result<u64, Fault>
        ensures answer { MatchResult result (GrantedLine (C.meaning self.old.contract) line.now) (λ e. RefusedLine (C.meaning self.old.contract) line.now (code e)) }
        ensures after { MatchResult result (λ level. booked C.meaning self.new ≡ after_grant (booked C.meaning self.old) level) (λ _. booked C.meaning self.new ≡ booked C.meaning self.old) }
    {
        let level = level_of(line)?;
        dispatch(&mut self.contract, level)?;
        self.slots = self.slots.saturating_add(1);
        self.energy = self.energy.saturating_add(level);
        Ok(level)
    }

    // What comes of line number `count`.
    pub fn answer(&mut self, count: u64, line: &[u8]) -> Reply
        ensures { Replies (booked C.meaning self.old) (booked C.meaning self.new) count line.now result }
    {
        match self.ask(line) {
            Ok(level) => Reply::Granted(self.slots, level),
            Err(fault) => Reply::Refused(count, fault),
        }
    }

    // The contract as the levels granted so far have left it.
    pub fn contract(&self) -> &C
        ensures { result.now ≡ self.now.contract }
    {
        &self.contract
    }

    // How the evening ends: slots, energy, and the lowest level that may come next.
    pub fn end(&self) -> Reply
        ensures { result ≡ Ends self.now.slots self.now.energy (lowest (C.meaning self.now.contract)) }
    {
        Reply::Ends(self.slots, self.energy, self.contract.lowest())
    }
}
