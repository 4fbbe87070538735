// Examples worked by hand, as the definitions have them and as the calls answer.
ghost use Rattle.std.specs.Prelude.{◌≡◌, [], ◌∷◌, Some};
ghost use Rattle.contract.specs.Faults.{contract_fault};
ghost use Rattle.curve.specs.Worked.{Worked, told};

use crate::dispatching::dispatch;
use contract::{Contract, Fault};
use kinds::Switch;

// An evening on a switch with cap 100, memory 4 and allowance 100: lowest when new, after 40, and after 60,
// and what 59 is answered between the two.
#[tactic(auto, using(crate::proofs::Worked::worked))]
pub fn worked_evening() -> Result<([u32; 3], Result<(), Fault>), Fault>
    ensures answers { told result ≡ Some ((0 ∷ (60 ∷ (100 ∷ []))), Some (contract_fault 8 60)) }
    ensures worked { Worked }
{
    let mut switch = Switch::new(100, 4, 100)?;
    let fresh = switch.lowest();
    dispatch(&mut switch, 40)?;
    let owing = switch.lowest();
    let refused = dispatch(&mut switch, 59);
    dispatch(&mut switch, 60)?;
    Ok(([fresh, owing, switch.lowest()], refused))
}
