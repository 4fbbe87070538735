// The service curve for callers.
ghost use Rattle.std.specs.Prelude.{◌≡◌, ◌≤◌, [], ◌∷◌, ◌++◌, reverse, length, All};
ghost use Rattle.std.specs.Result.{result_err};
ghost use Rattle.curve.specs.Curve.{best};
ghost use Rattle.windows.specs.Curves.{curve_refusal, CurveList, InRange};

use crate::LEVELS_MOST;
use crate::conditions::Conditions;
use crate::refusals::ListFault;
use contract::Contract;

// The curve at the next length, by the curve at every shorter one: the best way to cut it has a last part of some
// length, and before that what the curve has there.
fn next_length(needs: &[u32], shorter: &[u32]) -> u32
    requires needs { All (λ n. n ≤ 1920000) needs.now }
    requires shorter { InRange shorter.now }
    ensures { result ≡ best needs.now (reverse shorter.now ++ (0 ∷ [])) }
{
    let mut most = needs.get(shorter.len()).copied().unwrap_or(0);
    for (need, before) in needs.iter().zip(shorter.iter().rev()) {
        most = most.max(*need + *before);
    }
    most
}

// Writes the curve at lengths 1, 2 and so on, one to each place of `list`.
pub fn write_curve<C: Contract>(contract: &C, list: &mut [u32]) -> Result<(), ListFault>
    ensures answer { result_err result ≡ curve_refusal (length list.old) }
    ensures after { CurveList (C.meaning contract.now) (result_err result) list.old list.new }
{
    if list.len() > LEVELS_MOST {
        return Err(ListFault::TooLong);
    }
    let conditions = Conditions::of(contract);
    // By index: each place is written from all those before it.
    for i in 0..list.len() {
        list[i] = next_length(conditions.needs.as_slice(), &list[..i]);
    }
    Ok(())
}
