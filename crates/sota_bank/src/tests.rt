//! Each call of the bank with ample memory, and banks that are dropped.
ghost use Rattle.std.specs.Prelude.{◌≡◌, ◌+◌, ◌<◌, ◌∷◌, [], ◌++◌, length};
ghost use Rattle.sota_bank.specs.Rows.{list_at, cap_at, with_list};

use crate::RowBank;
use sota_units::{NoMemory, Steps};
use std::alloc::Global;
use std::marker::Brand;
use std::sync::ledger::{Blank, Ledger};
use std::test::Fail;

fn push_two<P: Ledger>(bank: &mut RowBank<u64>, first: u64, second: u64, blank: Blank)
    requires name { blank.name ≡ P.name }
    requires parts { blank.parts ≡ P.parts }
    requires some { 0 < blank.parts }
    requires row { 0 < length bank.old }
    requires room { length (list_at bank.old 0) + 1 < cap_at bank.old 0 }
    ensures { bank.new ≡ with_list bank.old 0 (list_at bank.old 0 ++ first ∷ second ∷ []) }
{
    let mut pushes = Steps::<P>::new(blank);
    bank.push(0, first, &mut pushes);
    bank.append(0, &[second], &mut pushes);
}

#[test]
fn keeps_rows(rt: HostRuntime) -> Result<(), Fail> {
    let mut bank = RowBank::new(rt.alloc(), &[2, 0, 3])?;
    assert_eq!(rt; bank.rows(), 3);
    push_two::<Brand>(&mut bank, 7, 8, Blank::new(1));
    assert_eq!(rt; bank.front(0), [7, 8].as_slice());
    assert_eq!(rt; bank.front(1), [].as_slice());
    assert_eq!(rt; bank.front(2), [].as_slice());
    assert_eq!(rt; bank.cap(2), 3);

    bank.regrow(&[3, 1, 3])?;
    assert_eq!(rt; bank.rows(), 3);
    assert_eq!(rt; bank.front(0), [7, 8].as_slice());
    assert_eq!(rt; bank.front(1), [].as_slice());
    assert_eq!(rt; bank.front(2), [].as_slice());
    assert_eq!(rt; bank.cap(0), 3);
    assert_eq!(rt; bank.cap(1), 1);

    bank.window(0, 1, 2)[0] = 9;
    assert_eq!(rt; bank.front(0), [7, 9].as_slice());
    bank.cut(0, 1);
    assert_eq!(rt; bank.front(0), [7].as_slice());
    assert_eq!(rt; bank.len(0), 1);
    Ok(())
}

/// Makes a bank of 2 ^ 32 bytes, writes an entry and drops the bank.
fn make_and_drop<P: Ledger>(alloc: Global, pushes: &mut Steps<P>) -> Result<(), NoMemory> {
    let mut bank = RowBank::new(alloc, &[536_870_912])?;
    bank.push(0, 1_u64, pushes);
    Ok(())
}

fn make_and_drop_often<P: Ledger>(alloc: Global, blank: Blank) -> Result<(), NoMemory>
    requires name { blank.name ≡ P.name }
    requires parts { blank.parts ≡ P.parts }
    requires some { 0 < blank.parts }
{
    let mut pushes = Steps::<P>::new(blank);
    for _ in 0..35_000_u32 {
        make_and_drop(alloc, &mut pushes)?;
    }
    Ok(())
}

// Together the banks have more than 2 ^ 47 bytes, which is all that a process can address.
#[test]
fn banks_are_freed(rt: HostRuntime) -> Result<(), Fail> {
    Ok(make_and_drop_often::<Brand>(rt.alloc(), Blank::new(1))?)
}
