// Grants on a switch and a table, and what they leave.
use contract::{Contract, Fault};
use curve::{dispatch, worked_evening};
use kinds::{Switch, Table};
use std::test::Fail;

#[test]
fn switch_turns_down_what_it_cannot_make_up(rt: HostRuntime) -> Result<(), Fail> {
    let mut switch = Switch::new(100, 4, 100)?;
    assert_eq!(rt; switch.lowest(), 0);
    assert_eq!(rt; dispatch(&mut switch, 40), Ok(()));
    assert_eq!(rt; switch.lowest(), 60);
    assert_eq!(rt; dispatch(&mut switch, 59), Err(Fault::BelowLowest(60)));
    assert_eq!(rt; switch.lowest(), 60);
    assert_eq!(rt; dispatch(&mut switch, 60), Ok(()));
    assert_eq!(rt; switch.lowest(), 100);
    Ok(())
}

#[test]
fn worked_by_hand(rt: HostRuntime) -> Result<(), Fail> {
    let ([fresh, owing, full], refused) = worked_evening()?;
    assert_eq!(rt; (fresh, owing, full), (0, 60, 100));
    assert_eq!(rt; refused, Err(Fault::BelowLowest(60)));
    Ok(())
}

#[test]
fn levels_around_the_cap(rt: HostRuntime) -> Result<(), Fail> {
    let mut switch = Switch::new(20_000, 96, 1_920_000)?;
    assert_eq!(rt; switch.grant(20_001), Err(Fault::AboveCap));
    assert_eq!(rt; switch.grant(u64::MAX), Err(Fault::AboveCap));
    assert_eq!(rt; switch.grant(4_294_967_296), Err(Fault::AboveCap));
    assert_eq!(rt; switch.back(1), 20_000);
    assert_eq!(rt; switch.grant(20_000), Ok(()));
    assert_eq!(rt; switch.grant(0), Ok(()));
    assert_eq!(rt; (switch.back(1), switch.back(2)), (0, 20_000));
    Ok(())
}

#[test]
fn switch_answers_0_outside_its_lengths(rt: HostRuntime) -> Result<(), Fail> {
    let switch = Switch::new(100, 4, 100)?;
    assert_eq!(rt;
        (switch.need(0), switch.need(1), switch.need(2)),
        (0, 0, 100)
    );
    assert_eq!(rt;
        (switch.need(4), switch.need(5), switch.need(u32::MAX)),
        (300, 0, 0)
    );
    assert_eq!(rt;
        (switch.back(0), switch.back(1), switch.back(3)),
        (0, 100, 100)
    );
    assert_eq!(rt; (switch.back(4), switch.back(u32::MAX)), (0, 0));
    Ok(())
}

#[test]
fn table_answers_its_needs(rt: HostRuntime) -> Result<(), Fail> {
    let mut table = Table::new(10, &[4, 5])?;
    assert_eq!(rt; (table.cap(), table.memory()), (10, 2));
    assert_eq!(rt;
        (table.need(0), table.need(1), table.need(2), table.need(3)),
        (0, 4, 5, 0)
    );
    assert_eq!(rt; table.lowest(), 4);
    assert_eq!(rt; table.grant(3), Err(Fault::BelowLowest(4)));
    assert_eq!(rt; table.grant(4), Ok(()));
    assert_eq!(rt; (table.back(1), table.back(2)), (4, 0));
    Ok(())
}

// A ring of 96 goes round more than twice, and forgets what lies further back.
#[test]
fn ring_goes_round(rt: HostRuntime) -> Result<(), Fail> {
    let mut switch = Switch::new(1000, 96, 96_000)?;
    for level in 0..200u32 {
        switch.grant(u64::from(level))?;
        assert_eq!(rt; switch.back(1), level);
    }
    assert_eq!(rt; (switch.back(1), switch.back(2)), (199, 198));
    assert_eq!(rt; (switch.back(95), switch.back(96)), (105, 0));
    Ok(())
}

#[test]
fn memory_of_1_recalls_nothing(rt: HostRuntime) -> Result<(), Fail> {
    let mut table = Table::new(10, &[7])?;
    assert_eq!(rt; (table.memory(), table.back(1), table.lowest()), (1, 0, 7));
    assert_eq!(rt; table.grant(7), Ok(()));
    assert_eq!(rt; table.grant(6), Err(Fault::BelowLowest(7)));
    assert_eq!(rt; (table.back(1), table.lowest()), (0, 7));
    Ok(())
}
