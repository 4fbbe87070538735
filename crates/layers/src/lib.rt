// Contracts laid over any other contract: the floor and the extra. They pile up.
#![tactic(auto)]

mod extras;
mod floors;
mod over;
mod own;

pub use extras::Extra;
pub use floors::{EachSlot, Floor};
pub use over::{Over, Returned};
pub use own::OwnNeeds;
