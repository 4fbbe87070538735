// Needs that are given as a list.
ghost use Rattle.std.specs.Prelude.{◌≡◌, ◌≤◌, ◌∷◌, length, take, IfOk, slice_index};
ghost use Rattle.contract.specs.Faults.{refusal};
ghost use Rattle.kinds.specs.Kinds.{needs_refusal};

use crate::sizes::check_sizes;
use contract::Fault;

// The needs of lengths 1 to `count`. An array and its count, and not the kit's `ArrayVec`, which cannot be copied.
#[derive(Clone, Copy)]
pub struct Needs {
    each: [u32; 96],
    count: u32,
    ghost few: { count ≤ 96 },
    ghost long: { length (take count each) ≡ count },
}

impl Needs {
    ghost use Rattle.kinds.specs.Listed.{listed};

    // Refuses a cap or a number of needs outside its limits, and a need above its length times the cap.
    pub fn new(cap: u64, needs: &[u64]) -> Result<Needs, Fault>
        ensures answer { refusal result ≡ needs_refusal «cap» needs.now }
        ensures made { IfOk result (λ n. listed n ≡ needs.now) }
    {
        let (_, count) = check_sizes(cap, needs.len() as u64)?;
        let mut each = [0; 96];
        for (i, need) in needs.iter().enumerate() {
            let length = i as u32 + 1;
            if *need > u64::from(length) * cap {
                return Err(Fault::OwnNeed(length));
            }
            each[i] = *need as u32;
        }
        Ok(Needs { each, count })
    }

    pub fn count(&self) -> u32
        ensures { result ≡ length (listed self.now) }
    {
        self.count
    }

    // The need of `length`; 0 where there is none.
    pub fn need(&self, length: u32) -> u32
        ensures { result ≡ slice_index (0 ∷ listed self.now) length }
    {
        if length == 0 || length > self.count {
            return 0;
        }
        self.each[length as usize - 1]
    }
}
