// A dispatcher's evening on one contract: lines come in that ask for levels, and each is answered.
#![tactic(auto)]

mod evenings;
mod numerals;
mod replies;
mod terms;

pub use evenings::Evening;
pub use numerals::{level_of, number_of};
pub use replies::Reply;
pub use terms::{Terms, opening};
