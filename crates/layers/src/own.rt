// What a layer adds to the needs of the contract that it lies over.
ghost use Rattle.std.specs.Prelude.{◌≡◌, ℕ, ◌*◌, ◌≤◌};

// Needs of a layer's own, by the cap of the contract below.
pub trait OwnNeeds {
    // The letter of the layer, and what clauses know of it.
    const LETTER: char;

    ghost LETTER: { ℕ };

    // The need of each length, under a cap.
    ghost own: { Self → ℕ → ℕ → ℕ };

    // So wide that no cap and no length is too great for it.
    fn own_need(&self, cap: u32, length: u32) -> u64
        ensures { result ≡ own self.now «cap» length };

    // Never more than the cap in each slot.
    ghost most: { (s : Self) (top k : ℕ) → own s top k ≤ k * top };
}
