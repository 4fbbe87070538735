// Every making at its limits and one past them, and the order of its checks.
use contract::{Contract, Fault};
use kinds::{Switch, Table};
use layers::{Extra, Floor, Returned};
use std::test::Fail;

fn switch_fault(cap: u64, memory: u64, allowance: u64) -> Option<Fault> {
    Switch::new(cap, memory, allowance).err()
}

fn table_fault(cap: u64, needs: &[u64]) -> Option<Fault> {
    Table::new(cap, needs).err()
}

// Of a refused layer: its fault, and the newest level that the contract given back recalls.
fn returned<L: Drop, C: Contract + Drop>(laid: Result<L, Returned<C>>) -> Option<(Fault, u32)> {
    laid.err().map(|back| (back.fault, back.contract.back(1)))
}

#[test]
fn switch_limits(rt: HostRuntime) {
    for (cap, fault) in [
        (0, Some(Fault::Cap)),
        (1, None),
        (20_000, None),
        (20_001, Some(Fault::Cap)),
        (u64::MAX, Some(Fault::Cap)),
    ] {
        assert_eq!(rt; switch_fault(cap, 1, 0), fault);
    }
    for (memory, fault) in [
        (0, Some(Fault::Memory)),
        (1, None),
        (96, None),
        (97, Some(Fault::Memory)),
        (u64::MAX, Some(Fault::Memory)),
    ] {
        assert_eq!(rt; switch_fault(100, memory, 0), fault);
    }
    for (allowance, fault) in [
        (0, None),
        (400, None),
        (401, Some(Fault::Allowance)),
        (u64::MAX, Some(Fault::Allowance)),
    ] {
        assert_eq!(rt; switch_fault(100, 4, allowance), fault);
    }
}

#[test]
fn table_limits(rt: HostRuntime) {
    assert_eq!(rt; table_fault(0, &[0]), Some(Fault::Cap));
    assert_eq!(rt; table_fault(20_001, &[0]), Some(Fault::Cap));
    assert_eq!(rt; table_fault(10, &[]), Some(Fault::Memory));
    assert_eq!(rt; table_fault(10, &[0; 96]), None);
    assert_eq!(rt; table_fault(10, &[0; 97]), Some(Fault::Memory));
    assert_eq!(rt; table_fault(10, &[10, 20, 30]), None);
    assert_eq!(rt; table_fault(10, &[11, 21, 31]), Some(Fault::OwnNeed(1)));
    assert_eq!(rt; table_fault(10, &[10, 20, 31]), Some(Fault::OwnNeed(3)));
    assert_eq!(rt; table_fault(10, &[0, u64::MAX]), Some(Fault::OwnNeed(2)));
}

#[test]
fn checks_go_down_the_table(rt: HostRuntime) {
    assert_eq!(rt; switch_fault(0, 0, 1), Some(Fault::Cap));
    assert_eq!(rt; switch_fault(1, 0, 1), Some(Fault::Memory));
    assert_eq!(rt; table_fault(0, &[]), Some(Fault::Cap));
    assert_eq!(rt; table_fault(1, &[2; 97]), Some(Fault::Memory));
}

fn fresh() -> Result<Switch, Fault> {
    Switch::new(100, 4, 100)
}

fn granted(level: u64) -> Result<Switch, Fault> {
    let mut switch = fresh()?;
    switch.grant(level)?;
    Ok(switch)
}

#[test]
fn floor_limits(rt: HostRuntime) -> Result<(), Fail> {
    assert_eq!(rt; returned(Floor::new(fresh()?, 100)), None);
    assert_eq!(rt;
        returned(Floor::new(fresh()?, 101)),
        Some((Fault::Floor, 100))
    );
    assert_eq!(rt;
        returned(Floor::new(fresh()?, u64::MAX)),
        Some((Fault::Floor, 100))
    );
    assert_eq!(rt;
        returned(Floor::new(granted(99)?, 0)),
        Some((Fault::NotNew, 99))
    );
    assert_eq!(rt;
        returned(Floor::new(granted(99)?, 101)),
        Some((Fault::Floor, 99))
    );
    Ok(())
}

#[test]
fn extra_limits(rt: HostRuntime) -> Result<(), Fail> {
    assert_eq!(rt;
        returned(Extra::new(fresh()?, &[])),
        Some((Fault::Memory, 100))
    );
    assert_eq!(rt; returned(Extra::new(fresh()?, &[0; 4])), None);
    assert_eq!(rt;
        returned(Extra::new(fresh()?, &[101; 5])),
        Some((Fault::Memory, 100))
    );
    assert_eq!(rt;
        returned(Extra::new(fresh()?, &[101; 97])),
        Some((Fault::Memory, 100))
    );
    assert_eq!(rt;
        returned(Extra::new(fresh()?, &[100, 201])),
        Some((Fault::OwnNeed(2), 100))
    );
    assert_eq!(rt;
        returned(Extra::new(granted(0)?, &[100, 200])),
        Some((Fault::NotNew, 0))
    );
    assert_eq!(rt;
        returned(Extra::new(granted(0)?, &[101])),
        Some((Fault::OwnNeed(1), 0))
    );
    Ok(())
}

// Levels at the cap leave a contract as good as new, and a memory of 1 recalls none.
#[test]
fn layers_over_contracts_that_stand_as_new(rt: HostRuntime) -> Result<(), Fail> {
    assert_eq!(rt; returned(Floor::new(granted(100)?, 20)), None);
    let mut short = Switch::new(100, 1, 100)?;
    short.grant(0)?;
    assert_eq!(rt; returned(Floor::new(short, 20)), None);
    Ok(())
}

#[test]
fn faults_are_shown_by_row(rt: HostRuntime) -> Result<(), Fail> {
    for (fault, text) in [
        (Fault::Unreadable, "layer text number 1 detail 0"),
        (Fault::Cap, "layer contract number 3 detail 0"),
        (Fault::Memory, "layer contract number 4 detail 0"),
        (Fault::OwnNeed(7), "layer contract number 5 detail 7"),
        (Fault::Allowance, "layer contract number 5 detail 0"),
        (Fault::Floor, "layer contract number 5 detail 0"),
        (Fault::NotNew, "layer contract number 6 detail 0"),
        (Fault::AboveCap, "layer contract number 7 detail 0"),
        (Fault::BelowLowest(60), "layer contract number 8 detail 60"),
    ] {
        assert_eq!(rt; format!(in rt.alloc(); "{fault}")?.as_str(), text);
    }
    Ok(())
}
