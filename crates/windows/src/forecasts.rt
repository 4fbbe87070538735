// Forecasts: the lowest level over and over, on a copy.
ghost use Rattle.std.specs.Prelude.{◌≡◌, length, IfOk};
ghost use Rattle.std.specs.Result.{result_err};
ghost use Rattle.windows.specs.Forecasts.{forecast_energy, forecast_refusal, list_after};
ghost use Rattle.windows.specs.Planned.{ContractPromise, Foreseen};

use crate::conditions::Conditions;
use crate::refusals::ListFault;
use crate::sums::Windows;
use contract::Contract;

// The furthest that a forecast goes.
const SLOTS_MOST: u64 = 192;

// Writes the lowest levels of the next `slots` slots to the front of `list`, and gives their energy.
pub fn forecast<C: Contract>(contract: &C, slots: u64, list: &mut [u32]) -> Result<u32, ListFault>
    ensures answer { result_err result ≡ forecast_refusal slots (length list.old) }
    ensures energy { IfOk result (λ e. e ≡ forecast_energy (C.meaning contract.now) slots) }
    ensures after { list.new ≡ list_after (C.meaning contract.now) slots list.old }
    ensures foreseen { IfOk result (λ e. Foreseen (C.meaning contract.now) slots e list.new) }
    ensures promise { ContractPromise }
{
    if slots > SLOTS_MOST || slots > list.len() as u64 {
        return Err(ListFault::TooFar);
    }
    let conditions = Conditions::of(contract);
    let mut windows = Windows::recalled(contract);
    let mut energy = 0;
    for place in list[..slots as usize].iter_mut() {
        let level = windows.advance(&conditions);
        *place = level;
        energy += level;
    }
    Ok(energy)
}
