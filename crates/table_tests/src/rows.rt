//! Rows that come, share a hash, and go.

ghost use Rattle.std.specs.Prelude.{ℕ, ◌+◌};
ghost use Rattle.nfs_rows.specs.Rows.{IsAbove};

use nfs_rows::Rows;
use std::alloc::AllocError;
use std::test::Fail;

fn add(rows: &mut Rows<u32>, number: u64, hash: u64, value: u32) -> Result<(), AllocError>
    requires newest { IsAbove number rows.old.rows }
    ensures numbers { IsAbove (number + 1) rows.new.rows }
{
    if rows.reserve().is_err() {
        rows.reserve()?;
    }
    rows.add(number, hash, 1, value);
    Ok(())
}

fn remove(rows: &mut Rows<u32>, number: u64) -> Option<u32>
    ensures numbers { (above : ℕ) → IsAbove above rows.old.rows → IsAbove above rows.new.rows }
{
    rows.remove(number)
}

// The number of the row with this hash and value, if there is one.
fn named(rows: &Rows<u32>, hash: u64, value: u32) -> Option<u64> {
    match rows.find_named(hash, |row| *row == value) {
        Some((number, _)) => Some(number),
        None => None,
    }
}

/// Of three rows two share a hash, and are told apart by their values.
#[test]
fn tells_rows_of_one_hash_apart(rt: HostRuntime) -> Result<(), Fail> {
    let mut rows = Rows::new(rt.alloc());
    add(&mut rows, 1, 7, 10)?;
    add(&mut rows, 2, 8, 20)?;
    assert!(rt; named(&rows, 8, 20) == Some(2) && named(&rows, 8, 10).is_none());
    add(&mut rows, 3, 7, 30)?;
    assert!(rt; named(&rows, 7, 10) == Some(1) && named(&rows, 7, 30) == Some(3));
    Ok(())
}

/// A row that takes the slot of one that is gone isn't that one.
#[test]
fn slot_is_given_again(rt: HostRuntime) -> Result<(), Fail> {
    let mut rows = Rows::new(rt.alloc());
    add(&mut rows, 1, 7, 10)?;
    assert!(rt; remove(&mut rows, 1) == Some(10));
    add(&mut rows, 2, 8, 20)?;
    assert!(rt; rows.find(1).is_none() && rows.find(2).copied() == Some(20));
    assert!(rt; named(&rows, 7, 10).is_none() && named(&rows, 8, 20) == Some(2));
    Ok(())
}
