// The verdict on a record of levels.
ghost use Rattle.std.specs.Prelude.{◌≡◌, IfOk, nat_lt, position};
ghost use Rattle.std.specs.Result.{result_err};
ghost use Rattle.windows.specs.Judging.{Chosen, Decided};
ghost use Rattle.windows.specs.Windows.{lengths, margin_of};
ghost use Rattle.windows.specs.Verdicts.{first_above, Judges, verdict_refusal};
ghost use Rattle.windows.specs.declared.verdicts.Verdict.{Verdict};

use crate::LEVELS_MOST;
use crate::conditions::Conditions;
use crate::refusals::ListFault;
use crate::sums::Windows;
use crate::verdicts::{Tightest, Verdict};
use contract::Contract;

// Refuses the first level above the cap.
fn check_levels(cap: u32, record: &[u32]) -> Result<(), ListFault>
    ensures { result_err result ≡ first_above «cap» 1 «record».now }
{
    first_place_above(cap, record).map_or(Ok(()), |i| Err(ListFault::AboveCap(i as u64 + 1)))
}

fn first_place_above(cap: u32, record: &[u32]) -> Option<usize>
    ensures { result ≡ position (λ level. nat_lt «cap» level) «record».now }
{
    record.iter().position(|level| *level > cap)
}

// The tightest window so far, with those that end in slot `end` looked at too. Of equals the older one stays.
fn tighter(
    windows: &Windows,
    conditions: &Conditions,
    end: u32,
    so_far: Option<Tightest>,
) -> Tightest
    ensures { Chosen (margin_of conditions.now windows.now) (lengths conditions.now) end so_far result }
{
    let margin = windows.least_margin(conditions);
    match so_far {
        Some(tightest) if tightest.margin <= margin => tightest,
        _ => Tightest {
            margin,
            end,
            length: windows.shortest(conditions, margin),
        },
    }
}

// A record is broken by a negative margin.
fn decided(tightest: Option<Tightest>) -> Verdict
    ensures { Decided tightest result }
{
    match tightest {
        Some(window) if window.margin < 0 => Verdict::Broken(window),
        _ => Verdict::Kept(tightest),
    }
}

// Judges levels that were granted one after the other, begun on a new contract with this one's cap, memory and needs.
#[tactic(auto, using(crate::proofs::Unique::one_verdict))]
pub fn verdict<C: Contract>(contract: &C, record: &[u32]) -> Result<Verdict, ListFault>
    ensures answer { result_err result ≡ verdict_refusal (C.meaning contract.now) «record».now }
    ensures judged { IfOk result (Judges (C.meaning contract.now) «record».now) }
    ensures only { IfOk result (λ v. (w : Verdict) → Judges (C.meaning contract.now) «record».now w → v ≡ w) }
{
    let conditions = Conditions::of(contract);
    check_levels(conditions.cap, record)?;
    if record.len() > LEVELS_MOST {
        return Err(ListFault::TooLong);
    }
    let mut windows = Windows::at_cap(&conditions);
    let mut tightest = None;
    // A `for` over the record with its slots, and the sums beside, by a rule of the project.
    for (i, level) in record.iter().enumerate() {
        windows.slide(&conditions, *level);
        tightest = Some(tighter(&windows, &conditions, i as u32 + 1, tightest));
    }
    Ok(decided(tightest))
}
