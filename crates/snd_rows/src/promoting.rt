//! A reserved WAVE file that is promoted: the step that a fault carries, of each call of the disk that fails in turn, and all that a
//! crash may leave then.

use snd_disk::{Disk, Step};
use snd_edits::Mode;
use snd_file::File;
use snd_layout::Kind;
use snd_memory::{FailingCall, MemoryDisk, SteadyDisk, images_between};
use snd_opening::{open_read, open_update};
use snd_reservations::PromoteError;
use std::alloc::{AllocError, Global};
use std::test::Fail;

/// A file of one channel and two frames of 16 bits, 1 and -1, with a reservation of 28 bytes.
const RESERVED: &[u8; 84] =
    b"RIFF\x4c\0\0\0WAVEJUNK\x1c\0\0\0\0\0\0\0\0\0\0\0\0\0\0\0\0\0\0\0\0\0\0\0\0\0\0\0\0\0\0\0fmt \x10\0\0\0\x01\0\x01\0\x40\x1f\0\0\x80\x3e\0\0\x02\0\x10\0data\x04\0\0\0\x01\0\xff\xff";

/// The same with the first bytes of the RF64 file, and then with its data size too.
const BETWEEN: &[u8] =
    b"RF64\xff\xff\xff\xffWAVEds64\x1c\0\0\0\x4c\0\0\0\0\0\0\0\x04\0\0\0\0\0\0\0\x02\0\0\0\0\0\0\0\0\0\0\0fmt \x10\0\0\0\x01\0\x01\0\x40\x1f\0\0\x80\x3e\0\0\x02\0\x10\0data\x04\0\0\0\x01\0\xff\xff";

const PROMOTED: &[u8] =
    b"RF64\xff\xff\xff\xffWAVEds64\x1c\0\0\0\x4c\0\0\0\0\0\0\0\x04\0\0\0\0\0\0\0\x02\0\0\0\0\0\0\0\0\0\0\0fmt \x10\0\0\0\x01\0\x01\0\x40\x1f\0\0\x80\x3e\0\0\x02\0\x10\0data\xff\xff\xff\xff\x01\0\xff\xff";

/// The calls of a promotion: those that seal the file, then the first bytes, a sync, the data size, and a sync.
const PROMOTE: [Step; 10] = [
    Step::Len,
    Step::Sync,
    Step::Write,
    Step::Sync,
    Step::Write,
    Step::Sync,
    Step::Write,
    Step::Sync,
    Step::Write,
    Step::Sync,
];

/// A disk of which one call fails, counted from 1.
fn disk_with(alloc: Global, number: u64) -> Result<MemoryDisk, AllocError> {
    let mut failing = Vec::new(alloc);
    failing.push(FailingCall { number, sectors: 0 })?;
    MemoryDisk::new(alloc, RESERVED.to_vec(alloc)?, failing)
}

/// Closes a file.
fn close<'d, D: Disk, M: Mode>(file: File<'d, D, M>) {
    match file.close() {
        Ok(back) => {
            let _ = back;
        }
        Err((_, back)) => {
            let _ = back;
        }
    }
}

/// The step at which a promotion fails; none where it does not, or where the file is not opened.
fn promote(alloc: Global, disk: &mut MemoryDisk) -> Option<Step> {
    let mut file = match open_update(alloc, disk) {
        Ok(file) => file,
        Err((_, back)) => {
            let _ = back;
            return None;
        }
    };
    let failed = match file.promote() {
        Err(PromoteError::DiskFault(step)) => Some(step),
        _ => None,
    };
    close(file);
    failed
}

/// Whether bytes open as a file of a kind, with both frames.
fn opens_as(alloc: Global, bytes: &[u8], kind: Kind) -> Result<bool, AllocError> {
    let mut disk = SteadyDisk::new(alloc, bytes.to_vec(alloc)?)?;
    let mut file = match open_read(alloc, &mut disk) {
        Ok(file) => file,
        Err((_, back)) => {
            let _ = back;
            return Ok(false);
        }
    };
    let mut samples = [0; 4];
    let count = file.read_frames(&mut samples).ok();
    let is = file.kind() == kind;
    close(file);
    Ok(is && count == Some(2) && samples == [1, -1, 0, 0])
}

/// Whether each of these opens, as a WAVE file or as one of RF64.
fn open_all(alloc: Global, images: &[Vec<u8>]) -> Result<bool, AllocError> {
    for image in images {
        if !opens_as(alloc, image, Kind::Wave)? && !opens_as(alloc, image, Kind::Rf64)? {
            return Ok(false);
        }
    }
    Ok(true)
}

/// All that a crash may have left of a disk at any moment.
fn all_images(alloc: Global, disk: &MemoryDisk) -> Result<Vec<Vec<u8>>, AllocError> {
    images_between(alloc, disk, 0, disk.past().len())
}

/// A fault carries the step of the call that failed, and whatever a crash leaves then opens, with all frames.
#[test]
fn promotions_fail_safely(rt: HostRuntime) -> Result<(), Fail> {
    let alloc = rt.alloc();
    let mut steps = Vec::new(alloc);
    for number in 1..40u64 {
        let mut disk = disk_with(alloc, number)?;
        if let Some(step) = promote(alloc, &mut disk) {
            steps.push(step)?;
        }
        assert!(rt; open_all(alloc, &all_images(alloc, &disk)?)?);
    }
    assert!(rt; steps.as_slice() == PROMOTE.as_slice());
    Ok(())
}

/// A crash leaves one of three files: the WAVE file, the one between the two writes, or the promoted one.
#[test]
fn promotion_leaves_three_images(rt: HostRuntime) -> Result<(), Fail> {
    let alloc = rt.alloc();
    let mut disk = disk_with(alloc, 1000)?;
    assert!(rt; promote(alloc, &mut disk).is_none());
    assert_eq!(rt; disk.bytes(), PROMOTED);
    let images = all_images(alloc, &disk)?;
    assert_eq!(rt; images.len(), 3);
    for (image, wanted) in images.iter().zip([RESERVED.as_slice(), BETWEEN, PROMOTED]) {
        assert_eq!(rt; image.as_slice(), wanted);
    }
    assert!(rt; opens_as(alloc, RESERVED, Kind::Wave)?);
    assert!(rt; opens_as(alloc, BETWEEN, Kind::Rf64)?);
    assert!(rt; opens_as(alloc, PROMOTED, Kind::Rf64)?);
    Ok(())
}
