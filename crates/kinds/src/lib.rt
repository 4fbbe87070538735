// Contracts that stand on their own: the switch and the table of needs.
#![tactic(auto)]

mod needs;
mod rings;
mod sizes;
mod switches;
mod tables;

pub use needs::Needs;
pub use switches::Switch;
pub use tables::Table;
