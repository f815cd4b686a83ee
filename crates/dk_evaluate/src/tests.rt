//! Rows in memory. Whole evaluations are tested as runs, where the words, the texts and the restart file are too.
use crate::RowPool;
use dk_num::Dec;
use dk_types::Rows;
use std::test::Fail;

/// Rows are read by their numbers, and a point is found where it first stood.
#[test]
fn rows_are_read_by_number(rt: HostRuntime) -> Result<(), Fail> {
    let alloc = rt.alloc();
    let mut rows = RowPool::reserve(alloc, 2, 1, 1)?;
    rows.push(&[Dec::whole(5)], &[Dec::whole(6)], 1);
    rows.push(&[Dec::whole(5)], &[Dec::whole(7)], 1);
    assert_eq!(rt; rows.count(), 2);
    assert_eq!(rt; rows.point(2), [Dec::whole(5)].as_slice());
    assert_eq!(rt; rows.values(2), [Dec::whole(7)].as_slice());
    assert_eq!(rt; rows.first(2), 1);
    Ok(())
}
