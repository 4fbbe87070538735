// What contracts promise: their service curve, lawful lists of levels, and the dispatcher's grants.
#![tactic(auto)]

mod dispatching;
mod examples;

pub use dispatching::dispatch;
pub use examples::worked_evening;
