// What the windows of a contract tell: forecasts, verdicts on records, and the service curve for callers.
#![tactic(auto)]

mod conditions;
mod curves;
mod forecasts;
mod judging;
mod refusals;
mod sums;
mod verdicts;

pub use curves::write_curve;
pub use forecasts::forecast;
pub use judging::verdict;
pub use refusals::ListFault;
pub use verdicts::{Tightest, Verdict};

// The longest record that is judged, and the longest list that takes a curve.
const LEVELS_MOST: usize = 65_535;
