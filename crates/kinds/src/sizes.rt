// The limits of cap and memory.
ghost use Rattle.std.specs.Prelude.{◌≡◌, IfOk};
ghost use Rattle.contract.specs.Faults.{refusal};
ghost use Rattle.kinds.specs.Kinds.{sizes_refusal};
ghost use Rattle.kinds.specs.Sizes.{Sizes};

use contract::Fault;

const CAP_MOST: u64 = 20_000;

const MEMORY_MOST: u64 = 96;

// The two as a contract holds them.
pub(crate) fn check_sizes(cap: u64, memory: u64) -> Result<(u32, u32), Fault>
    ensures answer { refusal result ≡ sizes_refusal «cap» memory }
    ensures taken { IfOk result (λ s. (s.0 ≡ «cap») × (s.1 ≡ memory)) }
    ensures sizes { IfOk result (λ s. Sizes s.0 s.1) }
{
    if !(1..=CAP_MOST).contains(&cap) {
        return Err(Fault::Cap);
    }
    if !(1..=MEMORY_MOST).contains(&memory) {
        return Err(Fault::Memory);
    }
    Ok((cap as u32, memory as u32))
}
