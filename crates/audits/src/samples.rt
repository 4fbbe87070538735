// Contracts that several tests look at.
use contract::Fault;
use kinds::{Switch, Table};
use layers::{Extra, Floor};

// Needs 20, 120, 220 and 320.
pub(crate) fn floor() -> Result<Floor<Switch>, Fault> {
    Ok(Floor::new(Switch::new(100, 4, 80)?, 20)?)
}

// Needs 1, 9 and 18.
pub(crate) fn extra() -> Result<Extra<Table>, Fault> {
    Ok(Extra::new(Table::new(10, &[1, 5, 18])?, &[0, 9])?)
}

// Needs 3, 9 and 18.
pub(crate) fn pile() -> Result<Floor<Extra<Table>>, Fault> {
    Ok(Floor::new(extra()?, 3)?)
}
