// The energies of the windows that end with the newest slot, slot by slot.
ghost use Rattle.std.specs.Prelude.{◌≡◌, ℕ, suc, ◌*◌, ◌<◌, ◌≤◌, min, length, pos, ◌-ℤ◌, ◌≤ℤ◌, slice_index};
ghost use Rattle.contract.specs.Meaning.{Meaning, greatest, lowest, granted};
ghost use Rattle.windows.specs.Sums.{Low};

use crate::conditions::Conditions;
use contract::Contract;

// What one energy has above another, with its sign.
fn excess(energy: u32, other: u32) -> i32
    requires energy { energy ≤ 1920000 }
    requires other { other ≤ 1920000 }
    ensures { result ≡ pos energy -ℤ pos other }
{
    energy as i32 - other as i32
}

#[derive(Drop)]
pub(crate) struct Windows {
    // From length 1 on, as many as there are needs; the places behind them do not count. An array: an `ArrayVec` would have a
    // second length, to be kept equal to that of the needs. The conditions lie apart: beside sums that are written, the
    // compiler would read them again in each slot.
    sums: [u32; 96],
    ghost low: { Low sums },
}

impl Windows {
    ghost use Rattle.windows.specs.Sums.{Recent, Slid, owed_by, Least, First};
    ghost use Rattle.windows.specs.Windows.{Recalled, lengths, margin_of};

    // With every slot at the cap.
    pub(crate) fn at_cap(conditions: &Conditions) -> Windows
        ensures { (k : ℕ) → k < 96 → slice_index result.sums k ≡ suc k * conditions.now.«cap» }
    {
        let mut sums = [0; 96];
        // What `array::from_fn` says of a closure that reads the cap would take an induction.
        for (k, sum) in sums.iter_mut().enumerate() {
            *sum = (k as u32 + 1) * conditions.cap;
        }
        Windows { sums }
    }

    // With the slots that the contract recalls.
    pub(crate) fn recalled<C: Contract>(contract: &C) -> Windows
        ensures { Recent (C.meaning contract.now) result.sums }
    {
        let recalled = contract.memory() as usize - 1;
        let mut sums = [0; 96];
        let mut recent = 0;
        for (k, sum) in sums[..recalled].iter_mut().enumerate() {
            recent += contract.back(k as u32 + 1);
            *sum = recent;
        }
        Windows { sums }
    }

    // One slot on, with `level`: each window up to the memory ends there now.
    pub(crate) fn slide(&mut self, conditions: &Conditions, level: u32)
        requires { level ≤ 20000 }
        ensures { Slid level (lengths conditions.now) self.old.sums self.new.sums }
    {
        let mut before = 0;
        // By index: the check covers no slice of a field that is lent for writing where the type has an invariant, and of a
        // `take` over `iter_mut` the proof did not close.
        for i in 0..conditions.needs.len() {
            let sum = self.sums[i];
            self.sums[i] = level + before;
            before = sum;
        }
    }

    // The least level that the next slot may have.
    fn lowest(&self, conditions: &Conditions) -> u32
        ensures { result ≡ min conditions.now.«cap» (greatest (owed_by conditions.now.needs.items self.now.sums) (lengths conditions.now)) }
    {
        let needs = conditions.needs.as_slice();
        // Never negative, but signed: an unsigned `saturating_sub` is 1.3 times slower here.
        let mut owed = needs[0] as i32;
        // By place: a `zip` of the two is 1.4 times slower here.
        for (k, need) in needs[1..].iter().enumerate() {
            owed = owed.max(excess(*need, self.sums[k]));
        }
        (owed as u32).min(conditions.cap)
    }

    // Slides on by the lowest level, and gives it.
    pub(crate) fn advance(&mut self, conditions: &Conditions) -> u32
        ensures level { result ≤ 20000 }
        ensures value { (m : Meaning) → Recalled m conditions.now self.old → result ≡ lowest m }
        ensures after { (m : Meaning) → Recalled m conditions.now self.old → Recalled (granted m (lowest m)) conditions.now self.new }
    {
        let level = self.lowest(conditions);
        self.slide(conditions, level);
        level
    }

    // The least margin of the windows up to the memory.
    pub(crate) fn least_margin(&self, conditions: &Conditions) -> i32
        ensures { Least (margin_of conditions.now self.now) (lengths conditions.now) result }
    {
        let needs = conditions.needs.as_slice();
        let mut least = excess(self.sums[0], needs[0]);
        // Length 1 once more: sums are read as they were written, four at a time, from the first on.
        // By place: a `zip` of the two is 1.1 times slower here, and 1.7 times with the whole of `sums`.
        for (k, need) in needs.iter().enumerate() {
            least = least.min(excess(self.sums[k], *need));
        }
        least
    }

    // The length of the shortest window whose margin is not above `margin`; the memory if there is none.
    pub(crate) fn shortest(&self, conditions: &Conditions, margin: i32) -> u32
        ensures { (k : ℕ) → k < lengths conditions.now → margin_of conditions.now self.now k ≤ℤ margin → First (margin_of conditions.now self.now) (lengths conditions.now) margin result }
    {
        let needs = conditions.needs.as_slice();
        // A loop: of a `position` over the pairs it is not proved that it may call `excess`.
        for (k, need) in needs.iter().enumerate() {
            if excess(self.sums[k], *need) <= margin {
                return k as u32 + 1;
            }
        }
        needs.len() as u32
    }
}
