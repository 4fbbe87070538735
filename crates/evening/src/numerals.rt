// Numbers as a line writes them.
ghost use Rattle.std.specs.Prelude.{◌≡◌, ℕ, MatchResult};
ghost use Rattle.contract.specs.declared.faults.Fault.TheVariants.{Unreadable};
ghost use Rattle.evening.specs.Numerals.{Numeral, value, AsksFor};

use contract::Fault;

const LINE_FEED: u8 = b'\n';

const DIGITS_MOST: usize = 13;

// The number that the bytes write; anything but 1 to 13 digits with no needless zero in front is unreadable.
#[tactic(auto, using(crate::proofs::Tens::power_small, crate::proofs::Tens::one_digit_more, std::proofs::lemmas::Grind::pow_more))]
pub fn number_of(bytes: &[u8]) -> Result<u64, Fault>
    ensures { MatchResult result (λ n. Numeral bytes.now × (n ≡ value bytes.now)) (λ e. (Numeral bytes.now → ⊥) × (e ≡ Unreadable)) }
{
    if bytes.is_empty() || bytes.len() > DIGITS_MOST || matches!(bytes, [b'0', _, ..]) {
        return Err(Fault::Unreadable);
    }
    let mut number = 0;
    // One pass tests and adds; a fold would have to repeat the bound on the number so far in a clause of its closure.
    for b in bytes {
        if !b.is_ascii_digit() {
            return Err(Fault::Unreadable);
        }
        number = number * 10 + u64::from(*b - b'0');
    }
    Ok(number)
}

// The level that a line asks for.
pub fn level_of(line: &[u8]) -> Result<u64, Fault>
    ensures { MatchResult result (AsksFor line.now) (λ e. (((level : ℕ) → AsksFor line.now level → ⊥) × (e ≡ Unreadable))) }
{
    let [text @ .., LINE_FEED] = line else {
        return Err(Fault::Unreadable);
    };
    number_of(text)
}
