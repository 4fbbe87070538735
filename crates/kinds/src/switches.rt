// The switch.
ghost use Rattle.std.specs.Prelude.{◌≡◌, IfOk, IfErr};
ghost use Rattle.contract.specs.Faults.{refusal};
ghost use Rattle.contract.specs.Meaning.{New};
ghost use Rattle.kinds.specs.Kinds.{SwitchFault, new_switch, switch_refusal, switch_need, needs_by};
ghost use Rattle.kinds.specs.Rings.{Held};
ghost use Rattle.kinds.specs.Sizes.{Sizes};

use crate::rings::Ring;
use crate::sizes::check_sizes;
use contract::{Contract, Fault};

// A window of k slots is owed k times the cap, less the allowance. A switch is moved and not copied: two
// would part in what they recall. A type of its own beside the table: one for both would save three short answers, and
// want a trait for what is owed, with the limits of each as its laws.
#[derive(Drop)]
pub struct Switch {
    cap: u32,
    memory: u32,
    allowance: u32,
    ring: Ring,
    ghost sizes: { Sizes «cap» memory },
    ghost held: { Held «cap» ring },
}

impl Switch {
    ghost use Rattle.kinds.specs.Switches.{switch_meaning};

    // Refuses a cap or a memory outside its limits, and an allowance above memory times cap.
    pub fn new(cap: u64, memory: u64, allowance: u64) -> Result<Switch, Fault>
        ensures answer { refusal result ≡ switch_refusal «cap» memory allowance }
        ensures fault { IfErr result SwitchFault }
        ensures made { IfOk result (λ s. switch_meaning s ≡ new_switch «cap» memory allowance) }
        ensures begun { IfOk result (λ s. New (switch_meaning s)) }
    {
        let (cap, memory) = check_sizes(cap, memory)?;
        if allowance > u64::from(memory * cap) {
            return Err(Fault::Allowance);
        }
        Ok(Switch {
            cap,
            memory,
            allowance: allowance as u32,
            ring: Ring::new(cap),
        })
    }
}

impl Contract for Switch {
    ghost use Rattle.kinds.specs.Switches.{switch_meaning};
    ghost use Rattle.kinds.specs.Places.{length-needs_by, need_by_most, switch_need_most};
    ghost use Rattle.kinds.specs.Recalls.{limits_ring};

    const LETTER: char = 'S';

    ghost LETTER = { 83 };

    ghost meaning = { switch_meaning };

    ghost limits = { λ s.
        let f = switch_need s.«cap» s.allowance in
        limits_ring s.«cap» s.memory (needs_by f s.memory) (length-needs_by f s.memory) s.ring s.sizes
        (need_by_most f s.memory s.«cap» (λ k low high. switch_need_most s.«cap» s.allowance k))
        s.held };

    fn cap(&self) -> u32 {
        self.cap
    }

    fn memory(&self) -> u32 {
        self.memory
    }

    fn need(&self, length: u32) -> u32 {
        if length == 0 || length > self.memory {
            return 0;
        }
        (length * self.cap).saturating_sub(self.allowance)
    }

    fn back(&self, slots: u32) -> u32 {
        self.ring.back(self.memory, slots)
    }

    // In the same words as the table: one call in the trait, that took any level, would ask its caller for the test.
    fn grant(&mut self, level: u64) -> Result<(), Fault> {
        let level = self.admit(level)?;
        self.ring.push(level);
        Ok(())
    }
}
