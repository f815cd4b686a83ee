//! Pools of few rows.
use crate::{Pool, RowId};
use dk_num::{Dec, Unit};
use std::marker::{Send, Sync};
use std::test::Fail;

/// Two rows of one decimal each: they stand in order, and a removed row's room is used again.
#[test]
fn rows_stand_in_order(rt: HostRuntime) -> Result<(), Fail> {
    let mut pool = Pool::reserve(rt.alloc(), 2, 1)?;
    assert_eq!(rt; (pool.count(), pool.spare(), pool.width()), (0, 2, 1));
    let first = pool.put_row(&[Dec::whole(5)]);
    let second = pool.put_row(&[Dec::whole(6)]);
    assert_eq!(rt; (first, second), (RowId { index: 0 }, RowId { index: 1 }));
    assert_eq!(rt; (pool.count(), pool.spare(), pool.width()), (2, 0, 1));
    assert_eq!(rt; pool.row(first), [Dec::whole(5)].as_slice());
    assert_eq!(rt; pool.row(second), [Dec::whole(6)].as_slice());

    pool.truncate(1);
    assert_eq!(rt; (pool.count(), pool.spare(), pool.width()), (1, 1, 1));
    assert_eq!(rt; pool.row(first), [Dec::whole(5)].as_slice());
    assert_eq!(rt; pool.put_row(&[Dec::whole(7)]), second);
    assert_eq!(rt; (pool.count(), pool.spare()), (2, 0));
    assert_eq!(rt; pool.row(first), [Dec::whole(5)].as_slice());
    assert_eq!(rt; pool.row(second), [Dec::whole(7)].as_slice());
    Ok(())
}

/// Rows are put as numbers of tenths. A number that is set is the only one that changes.
#[test]
fn rows_of_units_are_changed(rt: HostRuntime) -> Result<(), Fail> {
    let tenths = Unit { exponent: -1 };
    let mut pool = Pool::reserve(rt.alloc(), 2, 2)?;
    let first = pool.put_units(&[50, 60], tenths);
    let second = pool.put_units(&[70, -80], tenths);
    assert_eq!(rt; (first, second), (RowId { index: 0 }, RowId { index: 1 }));
    assert_eq!(rt; (pool.count(), pool.spare(), pool.width()), (2, 0, 2));
    assert_eq!(rt; pool.row(first), [Dec::whole(5), Dec::whole(6)].as_slice());
    assert_eq!(rt;
        pool.row(second),
        [Dec::whole(7), Dec::whole(-8)].as_slice()
    );

    pool.set(first, 1, Dec::whole(9));
    assert_eq!(rt; pool.row(first), [Dec::whole(5), Dec::whole(9)].as_slice());
    assert_eq!(rt;
        pool.row(second),
        [Dec::whole(7), Dec::whole(-8)].as_slice()
    );
    Ok(())
}

/// A row of no decimals counts as a row.
#[test]
fn rows_may_be_empty(rt: HostRuntime) -> Result<(), Fail> {
    let mut pool = Pool::reserve(rt.alloc(), 1, 0)?;
    let row = pool.put_row(&[]);
    assert_eq!(rt; (pool.count(), pool.spare(), pool.width()), (1, 0, 0));
    assert!(rt; pool.row(row).is_empty());
    Ok(())
}

fn is_send_and_sync<T: Send + Sync>(_value: &T) {}

/// A pool of no rows has room for none. A pool may cross threads.
#[test]
fn a_pool_may_have_no_rows(rt: HostRuntime) -> Result<(), Fail> {
    let mut pool = Pool::reserve(rt.alloc(), 0, 3)?;
    is_send_and_sync(&pool);
    assert_eq!(rt; (pool.count(), pool.spare(), pool.width()), (0, 0, 3));
    pool.truncate(0);
    assert_eq!(rt; (pool.count(), pool.spare(), pool.width()), (0, 0, 3));
    Ok(())
}
