// What the benchmark calls from Rust by the C interface: only numbers and slices pass between the two, so terms come as
// four numbers.
#![tactic(auto)]

ghost use Rattle.std.specs.Prelude.{◌≡◌, cond, not, is_some, length, Some, None, IfSome};
ghost use Rattle.contract.specs.Meaning.{granted};
ghost use Rattle.windows.specs.Forecasts.{forecast_energy, list_after};
ghost use Rattle.windows.specs.Verdicts.{Judges};
ghost use Rattle.evening.specs.Agreed.{agreed};
ghost use Rattle.speed.specs.Answers.{LeastMargin, audit_refused, plan_refused, terms};

use contract::Contract;
use evening::Terms;
use windows::{Verdict, forecast, verdict};

// A new contract grants one level and forecasts; nothing where a call was refused.
fn plan(terms: Terms, level: u64, slots: u64, list: &mut [u32]) -> Option<u32>
    ensures energy { result ≡ cond (plan_refused terms level slots (length list.old)) None (Some (forecast_energy (granted (agreed terms) level) slots)) }
    ensures after { list.new ≡ cond (plan_refused terms level slots (length list.old)) list.old (list_after (granted (agreed terms) level) slots list.old) }
{
    let mut contract = terms.agree().ok()?;
    contract.grant(level).ok()?;
    forecast(&contract, slots, list).ok()
}

// A new contract judges a record; nothing where a call was refused.
fn audit(terms: Terms, record: &[u32]) -> Option<Verdict>
    ensures answer { not (is_some result) ≡ audit_refused terms «record».now }
    ensures judged { IfSome result (Judges (agreed terms) «record».now) }
{
    let contract = terms.agree().ok()?;
    verdict(&contract, record).ok()
}

// The energy of a forecast after one grant, and 0 after a refusal.
#[unsafe(no_mangle)]
pub extern "C" fn guldoper_forecast(
    cap: u64,
    memory: u64,
    allowance: u64,
    floor: u64,
    level: u64,
    slots: u64,
    list: &mut [u32],
) -> u32
    ensures energy { result ≡ cond (plan_refused (terms «cap» memory allowance floor) level slots (length list.old)) 0 (forecast_energy (granted (agreed (terms «cap» memory allowance floor)) level) slots) }
    ensures after { list.new ≡ cond (plan_refused (terms «cap» memory allowance floor) level slots (length list.old)) list.old (list_after (granted (agreed (terms «cap» memory allowance floor)) level) slots list.old) }
{
    let terms = Terms {
        cap,
        memory,
        allowance,
        floor,
    };
    plan(terms, level, slots, list).unwrap_or(0)
}

// The least margin of a record; 0 where it has none, and after a refusal.
#[unsafe(no_mangle)]
pub extern "C" fn guldoper_margin(
    cap: u64,
    memory: u64,
    allowance: u64,
    floor: u64,
    record: &[u32],
) -> i32
    ensures { LeastMargin (audit_refused (terms «cap» memory allowance floor) «record».now) (agreed (terms «cap» memory allowance floor)) «record».now result }
{
    let terms = Terms {
        cap,
        memory,
        allowance,
        floor,
    };
    // Zero for none: the caller in C has no `Option`.
    match audit(terms, record) {
        Some(Verdict::Kept(Some(tightest))) => tightest.margin,
        Some(Verdict::Broken(tightest)) => tightest.margin,
        _ => 0,
    }
}
