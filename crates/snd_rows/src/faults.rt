//! Which step a fault carries: an automatic append, and the close of a file, of which each call of the disk fails in turn.

use snd_disk::Step;
use snd_edits::WriteError;
use snd_memory::{FailingCall, MemoryDisk};
use snd_opening::open_update;
use std::alloc::{AllocError, Global};
use std::test::Fail;

/// A file of one channel and two frames of 16 bits, 1 and -1.
const PLAIN: &[u8; 48] =
    b"RIFF\x28\0\0\0WAVEfmt \x10\0\0\0\x01\0\x01\0\x40\x1f\0\0\x80\x3e\0\0\x02\0\x10\0data\x04\0\0\0\x01\0\xff\xff";

/// The calls of an automatic append: the data, the count, and the size of the whole, each with its sync.
const APPEND: [Step; 6] = [
    Step::Write,
    Step::Sync,
    Step::Write,
    Step::Sync,
    Step::Write,
    Step::Sync,
];

/// Those of the close behind it: the length, a sync, the count, a sync, the size of the whole, a sync.
const CLOSE: [Step; 6] = [
    Step::Len,
    Step::Sync,
    Step::Write,
    Step::Sync,
    Step::Write,
    Step::Sync,
];

/// A disk of which one call fails, counted from 1.
fn disk_with(alloc: Global, number: u64) -> Result<MemoryDisk, AllocError> {
    let mut failing = Vec::new(alloc);
    failing.push(FailingCall { number, sectors: 0 })?;
    MemoryDisk::new(alloc, PLAIN.to_vec(alloc)?, failing)
}

/// How calls end on a file that is updated automatically: whether they came to the append, the step at which this failed, and
/// the one at which the close failed.
#[derive(Clone, Copy)]
struct Ended {
    appends: bool,
    append: Option<Step>,
    close: Option<Step>,
}

/// Appends a frame to the file, and closes it; none where it is not opened.
fn append(alloc: Global, disk: &mut MemoryDisk) -> Option<Ended> {
    let mut file = match open_update(alloc, disk) {
        Ok(file) => file,
        Err((_, back)) => {
            let _ = back;
            return None;
        }
    };
    let appends = file.set_auto(true).is_ok() && file.seek_write(2).is_ok();
    let append = match file.write_frames(&[5]) {
        Err(WriteError::DiskFault(step)) => Some(step),
        _ => None,
    };
    let close = match file.close() {
        Ok(back) => {
            let _ = back;
            None
        }
        Err((fault, back)) => {
            let _ = back;
            Some(fault.0)
        }
    };
    Some(Ended {
        appends,
        append,
        close,
    })
}

/// A fault carries the step of the call that failed, in an automatic append and in the close behind it; and a file that is
/// broken by the append is closed with the same step.
#[test]
fn faults_carry_their_step(rt: HostRuntime) -> Result<(), Fail> {
    let alloc = rt.alloc();
    let (mut appends, mut closes) = (Vec::new(alloc), Vec::new(alloc));
    for number in 1..40u64 {
        let mut disk = disk_with(alloc, number)?;
        let Some(ended) = append(alloc, &mut disk) else {
            continue;
        };
        match (ended.appends, ended.append, ended.close) {
            (true, Some(step), close) => {
                assert!(rt; close == Some(step));
                appends.push(step)?;
            }
            (true, None, Some(step)) => closes.push(step)?,
            _ => {}
        }
    }
    assert!(rt; appends.as_slice() == APPEND.as_slice());
    assert!(rt; closes.as_slice() == CLOSE.as_slice());
    Ok(())
}
