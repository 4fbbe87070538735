// Service curves, written to a caller's list.
use crate::samples::{floor, pile};
use contract::Contract;
use kinds::{Switch, Table};
use std::test::Fail;
use windows::{ListFault, write_curve};

// What was granted does not matter.
#[test]
fn curve_of_a_switch_new_and_granted_to(rt: HostRuntime) -> Result<(), Fail> {
    let mut switch = Switch::new(100, 4, 100)?;
    let mut list = [7; 6];
    assert_eq!(rt; write_curve(&switch, &mut list), Ok(()));
    assert_eq!(rt; list, [0, 100, 200, 300, 300, 400]);
    switch.grant(40)?;
    let mut list = [7; 6];
    assert_eq!(rt; write_curve(&switch, &mut list), Ok(()));
    assert_eq!(rt; list, [0, 100, 200, 300, 300, 400]);
    assert_eq!(rt; (switch.back(1), switch.lowest()), (40, 60));
    Ok(())
}

// A cut can ask more than the need of the whole length.
#[test]
fn curves_of_a_table_and_of_layers(rt: HostRuntime) -> Result<(), Fail> {
    let mut list = [0; 3];
    assert_eq!(rt; write_curve(&Table::new(10, &[4, 5])?, &mut list), Ok(()));
    assert_eq!(rt; list, [4, 8, 12]);
    let mut list = [0; 7];
    assert_eq!(rt; write_curve(&floor()?, &mut list), Ok(()));
    assert_eq!(rt; list, [20, 120, 220, 320, 340, 440, 540]);
    assert_eq!(rt; write_curve(&pile()?, &mut list), Ok(()));
    assert_eq!(rt; list, [3, 9, 18, 21, 27, 36, 39]);
    Ok(())
}

#[test]
fn curves_of_the_shortest_and_the_longest_memory(rt: HostRuntime) -> Result<(), Fail> {
    let mut list = [7; 192];
    let mut needs = [0; 96];
    needs[95] = 950;
    assert_eq!(rt; write_curve(&Table::new(10, &needs)?, &mut list), Ok(()));
    assert_eq!(rt;
        (list[94], list[95], list[190], list[191]),
        (0, 950, 950, 1_900)
    );
    let mut list = [0; 3];
    let table = Table::new(10, &[7])?;
    assert_eq!(rt; write_curve(&table, &mut list), Ok(()));
    assert_eq!(rt; list, [7, 14, 21]);
    assert_eq!(rt; write_curve(&table, &mut []), Ok(()));
    Ok(())
}

#[test]
fn curve_of_65_535_lengths_is_the_longest(rt: HostRuntime) -> Result<(), Fail> {
    let table = Table::new(20_000, &[20_000])?;
    let mut list = [7; 65_536];
    assert_eq!(rt; write_curve(&table, &mut list), Err(ListFault::TooLong));
    assert_eq!(rt; (list[0], list[1], list[65_535]), (7, 7, 7));
    let mut list = [7; 65_535];
    assert_eq!(rt; write_curve(&table, &mut list), Ok(()));
    assert_eq!(rt; (list[0], list[65_534]), (20_000, 1_310_700_000));
    Ok(())
}
