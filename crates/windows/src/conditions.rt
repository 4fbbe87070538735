// What a contract asks of windows, read once.
ghost use Rattle.std.specs.Prelude.{◌≤◌, length, All};

use arrayvec::ArrayVec;
use contract::Contract;

#[derive(Drop)]
pub(crate) struct Conditions {
    pub(crate) cap: u32,
    // From length 1 on; their number is the memory.
    pub(crate) needs: ArrayVec<u32, 96>,
    ghost capped: { «cap» ≤ 20000 },
    ghost some: { 1 ≤ length needs.items },
    ghost most: { All (λ n. n ≤ 1920000) needs.items },
}

impl Conditions {
    ghost use Rattle.windows.specs.Sums.{Copies};

    pub(crate) fn of<C: Contract>(contract: &C) -> Conditions
        ensures { Copies (C.meaning contract.now) result }
    {
        let mut needs = ArrayVec::new();
        // By `push`, which is proved to find room; `extend` and `collect` return a failure to be dealt with.
        for k in 0..contract.memory() {
            needs.push(contract.need(k + 1));
        }
        Conditions {
            cap: contract.cap(),
            needs,
        }
    }
}
