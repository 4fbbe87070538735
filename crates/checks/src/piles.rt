// Layers over layers.
use contract::{Contract, Fault};
use curve::dispatch;
use kinds::{Switch, Table};
use layers::{Extra, Floor};
use std::test::Fail;

fn floor(below: Switch) -> Result<Floor<Switch>, Fault> {
    Ok(Floor::new(below, 20)?)
}

fn extra() -> Result<Extra<Table>, Fault> {
    Ok(Extra::new(Table::new(10, &[4, 5, 6])?, &[1, 9])?)
}

fn pile() -> Result<Floor<Extra<Switch>>, Fault> {
    let extra = Extra::new(Switch::new(100, 3, 300)?, &[0, 150])?;
    Ok(Floor::new(extra, 30)?)
}

fn letter<C: Contract>() -> char {
    C::LETTER
}

#[test]
fn each_kind_has_its_letter(rt: HostRuntime) -> Result<(), Fail> {
    assert_eq!(rt; (letter::<Switch>(), letter::<Table>()), ('S', 'T'));
    assert_eq!(rt;
        (letter::<Floor<Switch>>(), letter::<Extra<Table>>()),
        ('F', 'E')
    );
    let floor = floor(Switch::new(100, 4, 80)?)?;
    assert_eq!(rt; floor.kind(), 'F');
    Ok(())
}

#[test]
fn floor_over_switch(rt: HostRuntime) -> Result<(), Fail> {
    let floor = floor(Switch::new(100, 4, 80)?)?;
    assert_eq!(rt; (floor.cap(), floor.memory(), floor.lowest()), (100, 4, 20));
    assert_eq!(rt; (floor.need(0), floor.need(1), floor.need(2)), (0, 20, 120));
    assert_eq!(rt;
        (floor.need(3), floor.need(4), floor.need(5)),
        (220, 320, 0)
    );
    Ok(())
}

#[test]
fn extra_over_table(rt: HostRuntime) -> Result<(), Fail> {
    let extra = extra()?;
    assert_eq!(rt;
        (extra.need(1), extra.need(2), extra.need(3), extra.need(4)),
        (4, 9, 6, 0)
    );
    assert_eq!(rt; extra.back(2), 10);
    Ok(())
}

// A pile grants as its topmost layer says, and every layer recalls it.
#[test]
fn pile_of_three(rt: HostRuntime) -> Result<(), Fail> {
    let mut pile = pile()?;
    assert_eq!(rt; (pile.need(1), pile.need(2), pile.need(3)), (30, 150, 90));
    assert_eq!(rt; dispatch(&mut pile, 29), Err(Fault::BelowLowest(50)));
    assert_eq!(rt; dispatch(&mut pile, 50), Ok(()));
    assert_eq!(rt; (pile.back(1), pile.lowest()), (50, 100));
    assert_eq!(rt; dispatch(&mut pile, 99), Err(Fault::BelowLowest(100)));
    assert_eq!(rt; dispatch(&mut pile, 101), Err(Fault::AboveCap));
    assert_eq!(rt; dispatch(&mut pile, 100), Ok(()));
    assert_eq!(rt; (pile.back(1), pile.back(2), pile.lowest()), (100, 50, 50));
    Ok(())
}
