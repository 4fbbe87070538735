// The table of needs.
ghost use Rattle.std.specs.Prelude.{◌≡◌, ℕ, ◌*◌, ◌≤◌, ◌∷◌, IfOk, length, slice_index, refl};
ghost use Rattle.contract.specs.Faults.{refusal};
ghost use Rattle.contract.specs.Meaning.{New};
ghost use Rattle.kinds.specs.Kinds.{new_table, needs_refusal};
ghost use Rattle.kinds.specs.Listed.{listed};
ghost use Rattle.kinds.specs.Rings.{Held};
ghost use Rattle.kinds.specs.Sizes.{Sizes};

use crate::needs::Needs;
use crate::rings::Ring;
use contract::{Contract, Fault};

// Every window is owed what the caller has listed for its length. A type of its own beside the switch, and why is told there.
#[derive(Drop)]
pub struct Table {
    cap: u32,
    needs: Needs,
    ring: Ring,
    ghost sizes: { Sizes «cap» (length (listed needs)) },
    ghost most: { (k : ℕ) → slice_index (0 ∷ listed needs) k ≤ k * «cap» },
    ghost held: { Held «cap» ring },
}

impl Table {
    ghost use Rattle.kinds.specs.Tables.{table_meaning};

    // Refuses what a list of needs refuses.
    pub fn new(cap: u64, needs: &[u64]) -> Result<Table, Fault>
        ensures answer { refusal result ≡ needs_refusal «cap» needs.now }
        ensures made { IfOk result (λ s. table_meaning s ≡ new_table «cap» needs.now) }
        ensures begun { IfOk result (λ s. New (table_meaning s)) }
    {
        let needs = Needs::new(cap, needs)?;
        let cap = cap as u32;
        let ring = Ring::new(cap);
        Ok(Table { cap, needs, ring })
    }
}

impl Contract for Table {
    ghost use Rattle.kinds.specs.Tables.{table_meaning};
    ghost use Rattle.kinds.specs.Recalls.{limits_ring};

    const LETTER: char = 'T';

    ghost LETTER = { 84 };

    ghost meaning = { table_meaning };

    ghost limits = { λ s. limits_ring s.«cap» (length (listed s.needs)) (listed s.needs) refl s.ring s.sizes s.most s.held };

    fn cap(&self) -> u32 {
        self.cap
    }

    fn memory(&self) -> u32 {
        self.needs.count()
    }

    fn need(&self, length: u32) -> u32 {
        self.needs.need(length)
    }

    fn back(&self, slots: u32) -> u32 {
        self.ring.back(self.needs.count(), slots)
    }

    // In the same words as the switch, and why is told there.
    fn grant(&mut self, level: u64) -> Result<(), Fault> {
        let level = self.admit(level)?;
        self.ring.push(level);
        Ok(())
    }
}
