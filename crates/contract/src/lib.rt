// What a supply contract answers and grants, whatever its kind, and how a call is refused.
#![tactic(auto)]

mod faults;
mod service;

pub use faults::{Code, Fault, Layer};
pub use service::Contract;
