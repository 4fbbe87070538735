// Examples of forecasts and verdicts worked by hand, as the definitions have them and as the calls answer.
#![tactic(auto)]

ghost use Rattle.std.specs.Prelude.{◌≡◌, [], ◌∷◌, Some};
ghost use Rattle.worked.specs.declared.PlanFault.TheVariants.{Contract, List};
ghost use Rattle.worked.specs.Examples.{Worked, answered, hand_verdict};

use contract::Fault;
use curve::dispatch;
use kinds::Switch;
use windows::{ListFault, Verdict, forecast, verdict};

// Why an example broke off; none does.
#[derive(Clone, Copy, PartialEq, Eq, Debug)]
pub enum PlanFault {
    Contract(Fault),
    List(ListFault),
}

// Written out, as `thiserror` derives no contract, and a fault keeps its case.
impl From<Fault> for PlanFault {
    ghost from_gives = { λ e r. r ≡ Contract e };

    fn from(fault: Fault) -> PlanFault {
        PlanFault::Contract(fault)
    }
}

impl From<ListFault> for PlanFault {
    ghost from_gives = { λ e r. r ≡ List e };

    fn from(fault: ListFault) -> PlanFault {
        PlanFault::List(fault)
    }
}

// What an auditor and a planner are told on a switch with cap 100, memory 4 and allowance 100: the verdict on a record of
// 40, 30 and 100, and the two slots after 40 with their energy.
pub fn worked_plan() -> Result<(Verdict, [u32; 2], u32), PlanFault>
    ensures answers { answered result ≡ Some (hand_verdict, 60 ∷ (100 ∷ []), 160) }
    ensures worked { Worked }
{
    let mut switch = Switch::new(100, 4, 100)?;
    let judged = verdict(&switch, &[40, 30, 100])?;
    dispatch(&mut switch, 40)?;
    let mut coming = [0; 2];
    let energy = forecast(&switch, 2, &mut coming)?;
    Ok((judged, coming, energy))
}
