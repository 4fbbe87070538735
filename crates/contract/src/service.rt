// The interface of every kind of contract, told by what the contract means.
ghost use Rattle.std.specs.Prelude.{◌≡◌, ℕ, IfOk};
ghost use Rattle.contract.specs.Meaning.{Meaning, Limits, memory, need, back, lowest, granted};
ghost use Rattle.contract.specs.Faults.{refusal, grant_refusal, unless_refused};

use crate::faults::Fault;

pub trait Contract {
    // The letter by which the kind is printed, fixed by a rule of the project, and what clauses know of it.
    const LETTER: char;

    ghost LETTER: { ℕ };

    // Cap, needs and recalled levels.
    ghost meaning: { Self → Meaning };

    fn kind(&self) -> char
        ensures { result ≡ LETTER }
    {
        Self::LETTER
    }

    // The most energy that one slot may be granted.
    fn cap(&self) -> u32
        ensures { result ≡ (meaning self.now).«cap» };

    // The greatest length that has a need.
    fn memory(&self) -> u32
        ensures { result ≡ memory (meaning self.now) };

    // The energy that every window of `length` slots is owed; 0 outside 1 to the memory.
    fn need(&self, length: u32) -> u32
        ensures { result ≡ need (meaning self.now) length };

    // The level granted `slots` slots back; 0 outside 1 to the memory less one.
    fn back(&self, slots: u32) -> u32
        ensures { result ≡ back (meaning self.now) slots };

    // The least level that may be granted next.
    #[tactic(auto, using(crate::proofs::Levels::greatest_more, crate::proofs::Levels::newest_more))]
    fn lowest(&self) -> u32
        ensures { result ≡ lowest (meaning self.now) }
    {
        let mut owed = 0u32;
        let mut recent = 0u32;
        // Length by length: a contract answers for one at a time, and lends no list.
        for k in 1..=self.memory() {
            owed = owed.max(self.need(k).saturating_sub(recent));
            recent += self.back(k);
        }
        owed.min(self.cap())
    }

    // `level`, if a grant of it is not refused.
    fn admit(&self, level: u64) -> Result<u32, Fault>
        ensures answer { refusal result ≡ grant_refusal (meaning self.now) level }
        ensures value { IfOk result (λ x. x ≡ level) }
    {
        if level > u64::from(self.cap()) {
            return Err(Fault::AboveCap);
        }
        let level = level as u32;
        let lowest = self.lowest();
        if level < lowest {
            return Err(Fault::BelowLowest(lowest));
        }
        Ok(level)
    }

    // Grants `level` for the next slot.
    fn grant(&mut self, level: u64) -> Result<(), Fault>
        ensures answer { refusal result ≡ grant_refusal (meaning self.old) level }
        ensures after { meaning self.new ≡ unless_refused (refusal result) (meaning self.old) (granted (meaning self.old) level) };

    ghost limits: { (s : Self) → Limits (meaning s) };
}
