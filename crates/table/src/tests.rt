use crate::{NoRoom, Table};
use std::test::Fail;

// Two items fill a table of two places; one is taken out, and the other closes up.
#[test]
fn fills_and_closes_up(rt: HostRuntime) {
    let mut table: Table<u8, 2> = Table::new(0);
    assert!(rt; table.push(7).is_ok());
    assert!(rt; table.push(8).is_ok());
    assert!(rt; table.push(9) == Err(NoRoom));
    table.set(1, 9);
    table.set(2, 1);
    assert_eq!(rt; table.as_slice(), [7, 9].as_slice());
    table.remove(0);
    assert_eq!(rt; table.as_slice(), [9].as_slice());
    assert_eq!(rt; table.len(), 1);
}

// A clone is a copy.
#[test]
fn clones(rt: HostRuntime) -> Result<(), Fail> {
    let mut table: Table<u8, 2> = Table::new(0);
    assert!(rt; table.push(7).is_ok());
    let other = table.clone()?;
    table.remove(0);
    assert_eq!(rt; other.as_slice(), [7].as_slice());
    Ok(())
}

// A table of a slice that fits; its first item goes, and then there is none.
#[test]
fn holds_a_slice(rt: HostRuntime) -> Result<(), Fail> {
    let full: Result<Table<u8, 2>, NoRoom> = Table::from_slice(&[7, 8, 9], 0);
    assert!(rt; full.is_err());
    let made: Result<Table<u8, 2>, NoRoom> = Table::from_slice(&[7, 8], 0);
    let mut table = made.unwrap_or(Table::new(0));
    assert_eq!(rt; table.as_slice(), [7, 8].as_slice());
    table.remove_first();
    assert_eq!(rt; table.as_slice(), [8].as_slice());
    table.remove_first();
    table.remove_first();
    assert_eq!(rt; table.len(), 0);
    Ok(())
}
