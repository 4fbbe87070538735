// The extra: needs of its own beside those below.
ghost use Rattle.std.specs.Prelude.{◌≡◌, ◌||◌, length, nat_lt, IfOk, MatchResult};
ghost use Rattle.contract.specs.Faults.{contract_fault, refusal, refuse_if};
ghost use Rattle.contract.specs.Meaning.{New, memory};
ghost use Rattle.kinds.specs.Kinds.{outside, too_great};
ghost use Rattle.kinds.specs.Listed.{listed};
ghost use Rattle.layers.specs.Layers.{Answers, extended, extra_refusal, extra_need};
ghost use Rattle.layers.specs.Laid.{extra_most};

use crate::over::{Over, Returned};
use crate::own::OwnNeeds;
use contract::{Contract, Fault};
use kinds::Needs;

pub type Extra<C> = Over<C, Needs>;

impl OwnNeeds for Needs {
    const LETTER: char = 'E';

    ghost LETTER = { 69 };

    ghost own = { λ s top k. extra_need top (listed s) k };

    ghost most = { λ s top k. extra_most top (listed s) k };

    fn own_need(&self, cap: u32, length: u32) -> u64 {
        let most = u64::from(length) * u64::from(cap);
        u64::from(self.need(length)).min(most)
    }
}

// Needs that fit below: no more of them than its memory, and each within its limit.
// Inlined, the needs would be moved word by word between two shapes of `Result`, which takes longer than the call.
#[inline(never)]
fn needs_over<C: Contract>(below: &C, needs: &[u64]) -> Result<Needs, Fault>
    ensures answer { refusal result ≡ refuse_if (outside 1 96 (length needs.now) || nat_lt (memory (C.meaning below.now)) (length needs.now)) (contract_fault 4 0) (too_great (C.meaning below.now).«cap» 1 needs.now) }
    ensures made { IfOk result (λ n. listed n ≡ needs.now) }
{
    if needs.len() > below.memory() as usize {
        return Err(Fault::Memory);
    }
    Needs::new(u64::from(below.cap()), needs)
}

impl<C: Contract> Over<C, Needs> {
    // Refuses needs that are none, longer than the memory below or above their limit, and a contract that
    // recalls a level under the cap.
    pub fn new(below: C, needs: &[u64]) -> Result<Extra<C>, Returned<C>>
        ensures answer { Answers result (extra_refusal (C.meaning below) needs.now) }
        ensures made { MatchResult result (λ s. (s.below ≡ below) × (listed s.own ≡ needs.now)) (λ e. e.contract ≡ below) }
        ensures begun { IfOk result (λ s. New (extended (C.meaning s.below) (listed s.own))) }
    {
        let own = needs_over(&below, needs);
        Over::lay(below, own)
    }
}
