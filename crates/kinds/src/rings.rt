// The last 96 levels, in an array that begins at the cap and a struct without an invariant, by a rule of the project: what
// holds of it is said by the kind that has one.
ghost use Rattle.std.specs.Prelude.{◌≡◌, ℕ, ◌-◌, ◌<◌, ◌≤◌, ◌∷◌, take, replicate, slice_index};
ghost use Rattle.kinds.specs.Rings.{recent, Held};

#[derive(Clone, Copy)]
pub struct Ring {
    levels: [u32; 96],
    // Where the newest level stands; the older ones follow it, and go on at the front.
    newest: usize,
}

impl Ring {
    pub fn new(cap: u32) -> Ring
        ensures full { recent result ≡ replicate 96 «cap» }
        ensures held { Held «cap» result }
    {
        Ring {
            levels: [cap; 96],
            newest: 0,
        }
    }

    // The level `slots` slots back; 0 outside 1 to `memory` less one.
    pub fn back(&self, memory: u32, slots: u32) -> u32
        requires inside { self.now.newest < 96 }
        requires within { memory ≤ 96 }
        ensures { result ≡ slice_index (0 ∷ take (memory - 1) (recent self.now)) slots }
    {
        if slots == 0 || slots >= memory {
            return 0;
        }
        let at = self.newest + slots as usize - 1;
        if at < 96 {
            self.levels[at]
        } else {
            self.levels[at - 96]
        }
    }

    // `level` becomes the newest, in the place of the oldest.
    pub fn push(&mut self, level: u32)
        requires { self.old.newest < 96 }
        ensures after { recent self.new ≡ level ∷ take 95 (recent self.old) }
        ensures held { (top : ℕ) → Held top self.old → level ≤ top → Held top self.new }
    {
        let at = self.newest.checked_sub(1).unwrap_or(95);
        self.levels[at] = level;
        self.newest = at;
    }
}
