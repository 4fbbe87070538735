// A dispatcher's evening that also tells what can still come, and whether the contract was kept.
#![tactic(auto)]

mod evenings;
mod replies;

pub use evenings::Evening;
pub use replies::Reply;
