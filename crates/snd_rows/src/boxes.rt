//! Boxes handed to a run do the work of its taps: those here count how often they are called.

use crate::memory::{run_in_memory, words_of};
use snd_taps::{Clips, Energy, Peak, Tap, TapKind, TapState};
use std::alloc::{AllocError, Global};
use std::cell::Cell;
use std::rc::Rc;
use std::test::Fail;

/// A file of one channel and two frames of 16 bits, 1 and -1.
const PLAIN: &[u8; 48] =
    b"RIFF\x28\0\0\0WAVEfmt \x10\0\0\0\x01\0\x01\0\x40\x1f\0\0\x80\x3e\0\0\x02\0\x10\0data\x04\0\0\0\x01\0\xff\xff";

const SCRIPT: &[u8] =
    b"open r a.wav\ntap peak\ntap energy\ntap peak\nread 2\nuntap peak\nuntap energy\nuntap peak\ntap peak\n";

const PRINTED: &[u8] =
    b"ok 2 1 8000 wave pcm_16_le\nok\nok\nerror 46 TapOn\nok 2\n1\n-1\nok peak 2 1\nok energy 2 2\nerror 45 NoSuchTap\nerror 45 NoSuchTap\n";

/// How often a tap was called.
#[derive(Clone, Drop)]
struct Calls {
    starts: Rc<Cell<u64>>,
    feeds: Rc<Cell<u64>>,
    reports: Rc<Cell<u64>>,
}

impl Calls {
    fn none(alloc: Global) -> Result<Calls, AllocError> {
        Ok(Calls {
            starts: Rc::new(alloc, Cell::new(0))?,
            feeds: Rc::new(alloc, Cell::new(0))?,
            reports: Rc::new(alloc, Cell::new(0))?,
        })
    }

    fn counts(&self) -> (u64, u64, u64) {
        (self.starts.get(), self.feeds.get(), self.reports.get())
    }
}

/// A tap that counts its calls.
#[derive(Drop)]
struct Counted<T: Tap> {
    inner: T,
    calls: Calls,
}

fn count_up(count: &Cell<u64>) {
    count.set(count.get().saturating_add(1));
}

impl<T: Tap> Tap for Counted<T> {
    ghost meter = { λ counted. T.meter counted.inner };

    fn kind(&self) -> TapKind {
        self.inner.kind()
    }

    fn start(&mut self, low: i32, high: i32) {
        count_up(&self.calls.starts);
        self.inner.start(low, high);
    }

    fn feed(&mut self, frame: &[i32]) {
        count_up(&self.calls.feeds);
        self.inner.feed(frame);
    }

    fn report(&self) -> TapState {
        count_up(&self.calls.reports);
        self.inner.report()
    }
}

/// Two taps are started and fed both frames, one twice refused; the third box waits and is never called.
#[test]
fn boxes_that_are_handed_in_are_called(rt: HostRuntime) -> Result<(), Fail> {
    let alloc = rt.alloc();
    let (of_peak, of_clips, of_energy) = (
        Calls::none(alloc)?,
        Calls::none(alloc)?,
        Calls::none(alloc)?,
    );
    let mut taps: Vec<Box<dyn Tap>> = Vec::new(alloc);
    let peak = Box::new(
        alloc,
        Counted {
            inner: Peak::new(),
            calls: of_peak.clone()?,
        },
    )?;
    taps.push(peak)?;
    let clips = Box::new(
        alloc,
        Counted {
            inner: Clips::new(),
            calls: of_clips.clone()?,
        },
    )?;
    taps.push(clips)?;
    let energy = Box::new(
        alloc,
        Counted {
            inner: Energy::new(),
            calls: of_energy.clone()?,
        },
    )?;
    taps.push(energy)?;
    let words = words_of(alloc, &["script"])?;
    let file = PLAIN.to_vec(alloc)?;
    let stages = Vec::new(alloc);
    let printed = run_in_memory(
        alloc,
        &words,
        "a.wav",
        file,
        SCRIPT.to_vec(alloc)?,
        taps,
        stages,
    )?;
    assert_eq!(rt; printed.status, 1);
    assert_eq!(rt; printed.out.as_slice(), PRINTED);
    for calls in [&of_peak, &of_energy] {
        let (starts, feeds, reports) = calls.counts();
        assert_eq!(rt; (starts, feeds), (1, 2));
        assert!(rt; reports >= 1);
    }
    assert_eq!(rt; of_clips.counts(), (0, 0, 0));
    Ok(())
}
