// The lowest levels of the slots ahead, and the list that takes them.
use crate::samples::{extra, pile};
use contract::{Contract, Fault};
use kinds::{Switch, Table};
use std::test::Fail;
use windows::{ListFault, forecast};

// A switch that still has 60 of a grant of 40 to make up.
fn owing() -> Result<Switch, Fault> {
    let mut switch = Switch::new(100, 4, 100)?;
    switch.grant(40)?;
    Ok(switch)
}

#[test]
fn switch_is_foreseen_new_and_owing(rt: HostRuntime) -> Result<(), Fail> {
    let mut list = [7; 6];
    assert_eq!(rt; forecast(&Switch::new(100, 4, 100)?, 6, &mut list), Ok(400));
    assert_eq!(rt; list, [0, 100, 100, 100, 0, 100]);
    let mut list = [7; 2];
    assert_eq!(rt; forecast(&owing()?, 2, &mut list), Ok(160));
    assert_eq!(rt; list, [60, 100]);
    Ok(())
}

#[test]
fn only_the_places_asked_for_are_written(rt: HostRuntime) -> Result<(), Fail> {
    let switch = owing()?;
    assert_eq!(rt; forecast(&switch, 0, &mut []), Ok(0));
    assert_eq!(rt; forecast(&switch, 1, &mut []), Err(ListFault::TooFar));
    let mut list = [7, 8, 9];
    assert_eq!(rt; forecast(&switch, 0, &mut list), Ok(0));
    assert_eq!(rt; forecast(&switch, 4, &mut list), Err(ListFault::TooFar));
    assert_eq!(rt; list, [7, 8, 9]);
    assert_eq!(rt; forecast(&switch, 2, &mut list), Ok(160));
    assert_eq!(rt; list, [60, 100, 9]);
    assert_eq!(rt; forecast(&switch, 3, &mut list), Ok(260));
    assert_eq!(rt; list, [60, 100, 100]);
    Ok(())
}

// 4,294,967,298 is 2 where only 32 bits are looked at.
#[test]
fn forecast_goes_192_slots_far(rt: HostRuntime) -> Result<(), Fail> {
    let switch = owing()?;
    let mut list = [7; 200];
    assert_eq!(rt; forecast(&switch, 193, &mut list), Err(ListFault::TooFar));
    assert_eq!(rt;
        forecast(&switch, 4_294_967_298, &mut list),
        Err(ListFault::TooFar)
    );
    assert_eq!(rt;
        forecast(&switch, u64::MAX, &mut list),
        Err(ListFault::TooFar)
    );
    assert_eq!(rt; list, [7; 200]);
    assert_eq!(rt; forecast(&switch, 192, &mut list), Ok(14_400));
    assert_eq!(rt; (list[0], list[191], list[192], list[199]), (60, 40, 7, 7));
    Ok(())
}

#[test]
fn forecast_leaves_the_contract_as_it_was(rt: HostRuntime) -> Result<(), Fail> {
    let switch = owing()?;
    assert_eq!(rt;
        (switch.lowest(), switch.back(1), switch.back(2)),
        (60, 40, 100)
    );
    let mut list = [7; 3];
    assert_eq!(rt; forecast(&switch, 3, &mut list), Ok(260));
    assert_eq!(rt;
        (switch.lowest(), switch.back(1), switch.back(2)),
        (60, 40, 100)
    );
    assert_eq!(rt; forecast(&switch, 3, &mut list), Ok(260));
    Ok(())
}

// The grants took 35,000 of the allowance: 13 slots at 0 and one at 15,000 take the rest. A full memory later it is
// taken again, slot by slot.
#[test]
fn memory_of_96_is_foreseen_twice_over(rt: HostRuntime) -> Result<(), Fail> {
    let mut switch = Switch::new(20_000, 96, 300_000)?;
    switch.grant(5_000)?;
    switch.grant(0)?;
    let mut list = [7; 192];
    assert_eq!(rt; forecast(&switch, 192, &mut list), Ok(3_240_000));
    assert_eq!(rt;
        (list[12], list[13], list[14], list[93]),
        (0, 15_000, 20_000, 20_000)
    );
    assert_eq!(rt;
        (list[94], list[95], list[109], list[191]),
        (5_000, 0, 15_000, 0)
    );
    assert_eq!(rt;
        forecast(&Switch::new(20_000, 96, 0)?, 192, &mut list),
        Ok(3_840_000)
    );
    assert_eq!(rt; list, [20_000; 192]);
    Ok(())
}

#[test]
fn memory_of_1_is_foreseen_at_its_need(rt: HostRuntime) -> Result<(), Fail> {
    let mut table = Table::new(10, &[7])?;
    table.grant(9)?;
    let mut list = [0; 3];
    assert_eq!(rt; forecast(&table, 3, &mut list), Ok(21));
    assert_eq!(rt; list, [7, 7, 7]);
    Ok(())
}

#[test]
fn piles_are_foreseen_by_their_topmost_layer(rt: HostRuntime) -> Result<(), Fail> {
    let mut list = [0; 7];
    assert_eq!(rt; forecast(&extra()?, 7, &mut list), Ok(37));
    assert_eq!(rt; list, [1, 8, 9, 1, 8, 9, 1]);
    let mut pile = pile()?;
    assert_eq!(rt; forecast(&pile, 7, &mut list), Ok(39));
    assert_eq!(rt; list, [3, 6, 9, 3, 6, 9, 3]);
    pile.grant(3)?;
    assert_eq!(rt; forecast(&pile, 7, &mut list), Ok(42));
    assert_eq!(rt; list, [6, 9, 3, 6, 9, 3, 6]);
    Ok(())
}
