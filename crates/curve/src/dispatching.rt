// The dispatcher's call.
ghost use Rattle.std.specs.Prelude.{◌≡◌};
ghost use Rattle.contract.specs.Faults.{refusal, grant_refusal, unless_refused};
ghost use Rattle.contract.specs.Meaning.{granted};
ghost use Rattle.curve.specs.Promise.{Asked, DispatchPromise};

use contract::{Contract, Fault};

// Asks the contract for `level` in the next slot.
pub fn dispatch<C: Contract>(contract: &mut C, level: u64) -> Result<(), Fault>
    ensures answer { refusal result ≡ grant_refusal (C.meaning contract.old) level }
    ensures after { C.meaning contract.new ≡ unless_refused (refusal result) (C.meaning contract.old) (granted (C.meaning contract.old) level) }
    ensures asked { Asked (C.meaning contract.old) (C.meaning contract.new) level (refusal result) }
    ensures promise { DispatchPromise }
{
    contract.grant(level)
}
