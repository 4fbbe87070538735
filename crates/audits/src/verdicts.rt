// Records judged by their tightest window.
use crate::samples::floor;
use contract::Contract;
use kinds::{Switch, Table};
use std::test::Fail;
use windows::{ListFault, Tightest, Verdict, verdict};
use worked::worked_plan;

fn kept(margin: i32, end: u32, length: u32) -> Result<Verdict, ListFault> {
    Ok(Verdict::Kept(Some(Tightest {
        margin,
        end,
        length,
    })))
}

fn broken(margin: i32, end: u32, length: u32) -> Result<Verdict, ListFault> {
    Ok(Verdict::Broken(Tightest {
        margin,
        end,
        length,
    }))
}

#[test]
fn margin_of_0_keeps_a_record(rt: HostRuntime) -> Result<(), Fail> {
    let switch = Switch::new(100, 4, 100)?;
    assert_eq!(rt; verdict(&switch, &[]), Ok(Verdict::Kept(None)));
    assert_eq!(rt; verdict(&switch, &[50, 51]), kept(1, 2, 2));
    assert_eq!(rt; verdict(&switch, &[50, 50]), kept(0, 2, 2));
    assert_eq!(rt; verdict(&switch, &[50, 49]), broken(-1, 2, 2));
    assert_eq!(rt; verdict(&switch, &[40, 30, 100]), broken(-30, 2, 2));
    let floor = floor()?;
    assert_eq!(rt; verdict(&floor, &[20, 100, 100, 100, 20]), kept(0, 1, 1));
    assert_eq!(rt; verdict(&floor, &[20, 100, 100, 99, 20]), broken(-1, 4, 4));
    assert_eq!(rt; verdict(&floor, &[19]), broken(-1, 1, 1));
    Ok(())
}

// Of windows with equal margins: the earliest end, even of a longer one, and then the shortest.
#[test]
fn equal_margins_are_told_by_end_and_length(rt: HostRuntime) -> Result<(), Fail> {
    assert_eq!(rt;
        verdict(&Table::new(10, &[4, 5])?, &[4, 10, 4]),
        kept(0, 1, 1)
    );
    assert_eq!(rt; verdict(&Table::new(10, &[4, 9])?, &[5, 4]), kept(0, 2, 1));
    assert_eq!(rt;
        verdict(&Table::new(10, &[4, 9])?, &[5, 3, 10, 3]),
        broken(-1, 2, 1)
    );
    assert_eq!(rt;
        verdict(&Table::new(10, &[2, 8])?, &[5, 3, 10, 2]),
        kept(0, 2, 2)
    );
    Ok(())
}

// Only windows of 96 slots are owed anything, and slots before the record have the cap.
#[test]
fn memory_of_96_reaches_before_the_record(rt: HostRuntime) -> Result<(), Fail> {
    let mut needs = [0; 96];
    needs[95] = 950;
    let table = Table::new(10, &needs)?;
    assert_eq!(rt; verdict(&table, &[9; 10]), kept(0, 10, 96));
    assert_eq!(rt; verdict(&table, &[9; 11]), broken(-1, 11, 96));
    assert_eq!(rt; verdict(&table, &[9; 200]), broken(-86, 96, 96));
    assert_eq!(rt;
        verdict(&Switch::new(20_000, 96, 0)?, &[0; 200]),
        broken(-1_920_000, 96, 96)
    );
    Ok(())
}

#[test]
fn records_longer_than_the_memory(rt: HostRuntime) -> Result<(), Fail> {
    let table = Table::new(10, &[7])?;
    assert_eq!(rt; verdict(&table, &[7, 10, 8]), kept(0, 1, 1));
    assert_eq!(rt; verdict(&table, &[9, 6, 6]), broken(-1, 2, 1));
    let switch = Switch::new(100, 4, 100)?;
    let mut record = [75; 200];
    assert_eq!(rt; verdict(&switch, &record), kept(0, 4, 4));
    record[199] = 70;
    assert_eq!(rt; verdict(&switch, &record), broken(-5, 200, 4));
    assert_eq!(rt; verdict(&switch, &[74; 200]), broken(-4, 4, 4));
    Ok(())
}

#[test]
fn what_is_recalled_does_not_matter(rt: HostRuntime) -> Result<(), Fail> {
    let mut switch = Switch::new(100, 4, 100)?;
    switch.grant(0)?;
    assert_eq!(rt; (switch.back(1), switch.lowest()), (0, 100));
    assert_eq!(rt; verdict(&switch, &[]), Ok(Verdict::Kept(None)));
    assert_eq!(rt; verdict(&switch, &[0]), kept(0, 1, 1));
    assert_eq!(rt; verdict(&switch, &[40, 30, 100]), broken(-30, 2, 2));
    assert_eq!(rt; (switch.back(1), switch.lowest()), (0, 100));
    Ok(())
}

#[test]
fn first_level_above_the_cap_is_told(rt: HostRuntime) -> Result<(), Fail> {
    let switch = Switch::new(100, 4, 100)?;
    assert_eq!(rt; verdict(&switch, &[100, 100]), kept(100, 1, 1));
    assert_eq!(rt;
        verdict(&switch, &[100, 101, 102]),
        Err(ListFault::AboveCap(2))
    );
    assert_eq!(rt;
        verdict(&switch, &[0, 0, u32::MAX]),
        Err(ListFault::AboveCap(3))
    );
    assert_eq!(rt; verdict(&switch, &[101]), Err(ListFault::AboveCap(1)));
    Ok(())
}

#[test]
fn record_of_65_535_levels_is_the_longest(rt: HostRuntime) -> Result<(), Fail> {
    let switch = Switch::new(100, 4, 100)?;
    let mut record = [100; 65_537];
    record[65_534] = 40;
    assert_eq!(rt; verdict(&switch, &record[..65_535]), kept(40, 65_535, 1));
    assert_eq!(rt;
        verdict(&switch, &record[..65_536]),
        Err(ListFault::TooLong)
    );
    assert_eq!(rt; verdict(&switch, &record), Err(ListFault::TooLong));
    record[65_536] = 101;
    assert_eq!(rt; verdict(&switch, &record), Err(ListFault::AboveCap(65_537)));
    Ok(())
}

#[test]
fn verdicts_are_written_with_their_sign(rt: HostRuntime) -> Result<(), Fail> {
    for (verdict, text) in [
        (Ok(Verdict::Kept(None)), "kept"),
        (kept(0, 3, 2), "kept margin 0 end 3 length 2"),
        (broken(-30, 2, 4), "broken margin -30 end 2 length 4"),
    ] {
        let verdict = verdict?;
        assert_eq!(rt; format!(in rt.alloc(); "{verdict}")?.as_str(), text);
    }
    Ok(())
}

#[test]
fn worked_by_hand(rt: HostRuntime) -> Result<(), Fail> {
    let (judged, coming, energy) = worked_plan()?;
    let tightest = Tightest {
        margin: -30,
        end: 2,
        length: 2,
    };
    assert_eq!(rt; judged, Verdict::Broken(tightest));
    assert_eq!(rt; coming, [60, 100]);
    assert_eq!(rt; energy, 160);
    Ok(())
}

#[test]
fn faults_are_shown_by_row(rt: HostRuntime) -> Result<(), Fail> {
    for (fault, text) in [
        (
            ListFault::AboveCap(4_294_967_296),
            "layer contract number 7 detail 4294967296",
        ),
        (ListFault::TooFar, "layer list number 14 detail 0"),
        (ListFault::TooLong, "layer list number 15 detail 0"),
    ] {
        assert_eq!(rt; format!(in rt.alloc(); "{fault}")?.as_str(), text);
    }
    Ok(())
}
