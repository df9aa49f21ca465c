//! A disk that plans: what it shows once it was given what it wanted, and that a plan which is carried out is the same calls in the
//! same order.
ghost use Rattle.std.specs.Prelude.{◌≡◌, IfOk};
ghost use Rattle.snd_memory.specs.Memory.{memory_state};

use snd_disk::{Disk, Failed};
use snd_memory::*;
use snd_plan::*;
use std::alloc::{AllocError, Global};
use std::test::Fail;

/// Writes over the end of a file, syncs, cuts it, and writes past its end.
fn change<D: Disk>(disk: &mut D) -> Result<(), Failed>
    requires { (D.state disk.old).size ≡ 600 }
{
    disk.write_at(590, &[2; 20])?;
    disk.sync()?;
    disk.cut(605)?;
    disk.write_at(607, &[3])
}

/// Reads from a place on, and again once what was wanted is given of a file of ones.
fn read_given(plan: &mut PlanDisk, at: u64, into: &mut [u8; 8]) -> Result<bool, AllocError> {
    if at > 1 << 20 || plan.read_at(at, into).is_ok() {
        return Ok(false);
    }
    let Some(Wanted { at: place, len }) = plan.wanted() else {
        return Ok(false);
    };
    let ones = [1; 8];
    if len > 8 {
        return Ok(false);
    }
    plan.give(place, &ones[..len as usize])?;
    Ok(plan.wanted().is_none() && plan.read_at(at, into) == Ok(8))
}

#[test]
fn shows_what_is_planned(rt: HostRuntime) -> Result<(), Fail> {
    let mut plan = PlanDisk::new(rt.alloc(), 600);
    assert!(rt; change(&mut plan).is_ok());
    assert!(rt; plan.len() == Ok(608));
    let mut bytes = [9; 8];
    assert!(rt; read_given(&mut plan, 586, &mut bytes)?);
    assert_eq!(rt; bytes, [1, 1, 1, 1, 2, 2, 2, 2]);
    // behind the end of the file nothing is wanted
    assert!(rt; plan.read_at(600, &mut bytes) == Ok(8));
    assert_eq!(rt; bytes, [2, 2, 2, 2, 2, 0, 0, 3]);
    plan.forget();
    assert!(rt; plan.read_at(586, &mut bytes).is_err());
    assert!(rt;
        plan.first()
            == Some(Planned::Write {
                at: 590,
                from: 0,
                len: 20
            })
    );
    Ok(())
}

/// A file of 600 ones, of which a call fails.
fn ones(alloc: Global, failing: u64) -> Result<MemoryDisk, AllocError>
    ensures { IfOk result (λ d. (memory_state d).size ≡ 600) }
{
    let mut calls = Vec::new(alloc);
    calls.push(FailingCall {
        number: failing,
        sectors: 0,
    })?;
    MemoryDisk::new(alloc, [1; 600].to_vec(alloc)?, calls)
}

/// Whether two disks had the same calls, as far as they show it.
fn had_the_same(alloc: Global, one: &MemoryDisk, other: &MemoryDisk) -> Result<bool, AllocError> {
    let count = one.past().len();
    let left = images_between(alloc, one, 0, count)?;
    let left_by_other = images_between(alloc, other, 0, count)?;
    Ok(one.bytes() == other.bytes() && count == other.past().len() && left == left_by_other)
}

#[test]
fn carries_plans_out(rt: HostRuntime) -> Result<(), Fail> {
    let alloc = rt.alloc();
    // with no call that fails, and with each that does
    for failing in 1..6 {
        let mut called = ones(alloc, failing)?;
        let mut carried = ones(alloc, failing)?;
        let mut plan = PlanDisk::new(alloc, 600);
        assert!(rt; change(&mut plan).is_ok());
        assert!(rt; plan.held() == 600);
        let done = carry_out(&mut plan, &mut carried);
        assert!(rt; done.is_ok() == change(&mut called).is_ok());
        assert!(rt; done.is_ok() == plan.first().is_none());
        assert!(rt; had_the_same(alloc, &called, &carried)?);
    }
    Ok(())
}
