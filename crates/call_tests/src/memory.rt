//! Disks in memory, which tests stand on: that all is listed which a crash may leave, where no clause says more than that what is listed
//! may be left; and that calls fail where they are told to.
use snd_disk::{Disk, Failed, Sink, Source};
use snd_memory::*;
use std::alloc::{AllocError, Global};
use std::process::Abort;
use std::test::Fail;

/// Bytes as runs: each byte, and how many of it.
type Runs = &'static [(u8, u16)];

/// A call that changes a disk.
#[derive(Clone, Copy)]
enum Action {
    Write(u16, Runs),
    Cut(u16),
    Sync,
}

/// Calls on a disk that holds some bytes.
struct Row {
    first: Runs,
    actions: &'static [Action],
    holds: Runs,
    /// What a crash may leave then, and what more it may have left before.
    now: &'static [Runs],
    before: &'static [Runs],
}

static ROWS: [Row; 8] = [
    // two sectors of three are written: each may be old or new
    Row {
        first: &[(1, 1536)],
        actions: &[Action::Write(0, &[(2, 1024)])],
        holds: &[(2, 1024), (1, 512)],
        now: &[
            &[(1, 1536)],
            &[(2, 512), (1, 1024)],
            &[(1, 512), (2, 512), (1, 512)],
            &[(2, 1024), (1, 512)],
        ],
        before: &[],
    },
    // a write within two sectors
    Row {
        first: &[(1, 700)],
        actions: &[Action::Write(500, &[(2, 100)])],
        holds: &[(1, 500), (2, 100), (1, 100)],
        now: &[
            &[(1, 700)],
            &[(1, 500), (2, 12), (1, 188)],
            &[(1, 512), (2, 88), (1, 100)],
            &[(1, 500), (2, 100), (1, 100)],
        ],
        before: &[],
    },
    // growth by a part of a sector: the length and the sector may come apart
    Row {
        first: &[(1, 500)],
        actions: &[Action::Write(500, &[(2, 8)])],
        holds: &[(1, 500), (2, 8)],
        now: &[&[(1, 500)], &[(1, 500), (0, 8)], &[(1, 500), (2, 8)]],
        before: &[],
    },
    // a write past the end leaves zeros between
    Row {
        first: &[(1, 100)],
        actions: &[Action::Write(600, &[(2, 1)])],
        holds: &[(1, 100), (0, 500), (2, 1)],
        now: &[
            &[(1, 100)],
            &[(1, 100), (0, 501)],
            &[(1, 100), (0, 500), (2, 1)],
        ],
        before: &[],
    },
    // a cut
    Row {
        first: &[(1, 512), (2, 512)],
        actions: &[Action::Cut(512)],
        holds: &[(1, 512)],
        now: &[&[(1, 512)], &[(1, 512), (0, 512)], &[(1, 512), (2, 512)]],
        before: &[],
    },
    // a sync in the middle
    Row {
        first: &[(1, 1024)],
        actions: &[
            Action::Write(0, &[(2, 512)]),
            Action::Sync,
            Action::Write(512, &[(3, 512)]),
        ],
        holds: &[(2, 512), (3, 512)],
        now: &[&[(2, 512), (1, 512)], &[(2, 512), (3, 512)]],
        before: &[&[(1, 1024)]],
    },
    // two writes with no sync between may be kept in either order
    Row {
        first: &[(1, 1024)],
        actions: &[
            Action::Write(0, &[(2, 512)]),
            Action::Write(512, &[(3, 512)]),
        ],
        holds: &[(2, 512), (3, 512)],
        now: &[
            &[(1, 1024)],
            &[(2, 512), (1, 512)],
            &[(1, 512), (3, 512)],
            &[(2, 512), (3, 512)],
        ],
        before: &[],
    },
    // growth after a cut: what was cut off may come back until the sync
    Row {
        first: &[(1, 10), (2, 2)],
        actions: &[Action::Cut(10), Action::Write(10, &[(3, 2)]), Action::Sync],
        holds: &[(1, 10), (3, 2)],
        now: &[&[(1, 10), (3, 2)]],
        before: &[&[(1, 10), (2, 2)], &[(1, 10), (0, 2)], &[(1, 10)]],
    },
];

/// A write, a cut and a sync of a disk of three sectors, of which one fails.
const THREE: [Action; 3] = [
    Action::Write(0, &[(2, 1024)]),
    Action::Cut(512),
    Action::Sync,
];

/// Which of the three fails, counted from 1, and the sectors that pass all the same; what the disk holds then, and how much a crash may leave.
static FAILING: [(u64, u64, Runs, usize); 7] = [
    (1, 0, &[(1, 512)], 1),
    (1, 1, &[(2, 512)], 1),
    (2, 0, &[(2, 1024), (1, 512)], 1),
    (2, 1, &[(2, 1024), (1, 512)], 1),
    (2, 3, &[(2, 512)], 1),
    (3, 0, &[(2, 512)], 14),
    (3, 3, &[(2, 512)], 14),
];

fn bytes_of(alloc: Global, runs: &[(u8, u16)]) -> Result<Vec<u8>, AllocError> {
    let mut bytes = Vec::new(alloc);
    for (byte, count) in runs {
        bytes.resize(bytes.len() + *count as usize, *byte)?;
    }
    Ok(bytes)
}

/// Makes a call, where the disk is long enough for it.
fn act(alloc: Global, disk: &mut MemoryDisk, action: Action) -> Result<(), Failed> {
    match action {
        Action::Write(at, runs) => {
            let bytes = bytes_of(alloc, runs).map_err(|_| Failed)?;
            if bytes.len() > 1 << 20 {
                return Err(Failed);
            }
            disk.write_at(at as u64, &bytes)
        }
        Action::Cut(len) => {
            if disk.bytes().len() < len as usize {
                return Err(Failed);
            }
            disk.cut(len as u64)
        }
        Action::Sync => disk.sync(),
    }
}

/// How many of the calls fail.
fn failed(alloc: Global, disk: &mut MemoryDisk, actions: &[Action]) -> usize {
    let mut count: usize = 0;
    for action in actions {
        if act(alloc, disk, *action).is_err() {
            count = count.saturating_add(1);
        }
    }
    count
}

/// Whether each of these is among others.
fn are_in(alloc: Global, listed: &[Vec<u8>], wanted: &[Runs]) -> Result<bool, AllocError> {
    for runs in wanted {
        if !listed.contains(&bytes_of(alloc, runs)?) {
            return Ok(false);
        }
    }
    Ok(true)
}

/// Whether all that a crash may leave is listed once, and no more.
fn lists_all(alloc: Global, disk: &MemoryDisk, row: &Row) -> Result<bool, AllocError> {
    let count = disk.past().len();
    let now = images_between(alloc, disk, count, count)?;
    let all = images_between(alloc, disk, 0, count)?;
    let as_many = now.len() == row.now.len()
        && all.len() == row.now.len().saturating_add(row.before.len());
    let are_now = are_in(alloc, &now, row.now)? && are_in(alloc, &all, row.now)?;
    Ok(as_many && are_now && are_in(alloc, &all, row.before)?)
}

fn passes(alloc: Global, row: &Row) -> Result<bool, AllocError> {
    let mut disk = MemoryDisk::new(alloc, bytes_of(alloc, row.first)?, Vec::new(alloc))?;
    let none = failed(alloc, &mut disk, row.actions) == 0;
    let holds = disk.bytes() == bytes_of(alloc, row.holds)?.as_slice();
    Ok(none && holds && lists_all(alloc, &disk, row)?)
}

#[test]
fn lists_what_a_crash_may_leave(rt: HostRuntime) -> Result<(), Fail> {
    for (i, row) in ROWS.iter().enumerate() {
        assert!(rt; passes(rt.alloc(), row)?, "row {i}");
    }
    Ok(())
}

/// Whether just the call that was told to fails, and what stands then.
fn fails(alloc: Global, row: &(u64, u64, Runs, usize)) -> Result<bool, AllocError> {
    let (number, sectors, holds, images) = *row;
    let mut failing = Vec::new(alloc);
    failing.push(FailingCall { number, sectors })?;
    let mut disk = MemoryDisk::new(alloc, bytes_of(alloc, &[(1, 1536)])?, failing)?;
    let one = failed(alloc, &mut disk, &THREE) == 1;
    let holds = disk.bytes() == bytes_of(alloc, holds)?.as_slice();
    let count = disk.past().len();
    let listed = images_between(alloc, &disk, count, count)?;
    Ok(one && holds && listed.len() == images)
}

#[test]
fn fails_where_told(rt: HostRuntime) -> Result<(), Fail> {
    for (i, row) in FAILING.iter().enumerate() {
        assert!(rt; fails(rt.alloc(), row)?, "row {i}");
    }
    Ok(())
}

/// How many bytes are taken of a source, and the first of them.
fn taken(source: &mut MemorySource) -> (Option<usize>, u8) {
    let mut piece = [0; 5];
    let count = source.take(&mut piece).ok();
    (count, piece[0])
}

#[test]
fn streams_fail_where_told(rt: HostRuntime) -> Result<(), Fail> {
    let alloc = rt.alloc();
    let mut numbers = Vec::new(alloc);
    numbers.push(2)?;
    let mut source = MemorySource::new(b"abcdefg".to_vec(alloc)?, 3, numbers);
    let wanted = [
        (Some(3), b'a'),
        (None, 0),
        (Some(3), b'd'),
        (Some(1), b'g'),
        (Some(0), 0),
    ];
    for (count, first) in wanted {
        assert!(rt; taken(&mut source) == (count, first));
    }
    Ok(())
}

#[test]
fn sinks_fail_where_told(rt: HostRuntime) -> Result<(), Fail> {
    let alloc = rt.alloc();
    let mut failing = Vec::new(alloc);
    failing.push(FailingPut {
        number: 2,
        bytes: 2,
    })?;
    let mut sink = MemorySink::new(alloc, failing);
    for (text, passes) in [("ab", true), ("cdef", false), ("g", true)] {
        assert!(rt; sink.put(text.as_bytes()).is_ok() == passes);
    }
    assert_eq!(rt; sink.bytes(), b"abcdg".as_slice());
    Ok(())
}
