//! Boxes handed to a run do the work of its racks: those here count how often they are called.

use crate::memory::{run_in_memory, words_of};
use arrayvec::ArrayVec;
use snd_disk::Shelf;
use snd_rack::{Fade, Gain, Invert, Pick, Setting, Stage, StageKind};
use std::alloc::{AllocError, Global};
use std::cell::Cell;
use std::rc::Rc;
use std::test::Fail;

/// A file of one channel and two frames of 16 bits, 1 and -1.
const PLAIN: &[u8; 48] =
    b"RIFF\x28\0\0\0WAVEfmt \x10\0\0\0\x01\0\x01\0\x40\x1f\0\0\x80\x3e\0\0\x02\0\x10\0data\x04\0\0\0\x01\0\xff\xff";

/// The same with the frames 0 and 1, and with 15 and -15.
const HALVED: &[u8] =
    b"RIFF\x28\0\0\0WAVEfmt \x10\0\0\0\x01\0\x01\0\x40\x1f\0\0\x80\x3e\0\0\x02\0\x10\0data\x04\0\0\0\0\0\x01\0";

const RAISED: &[u8] =
    b"RIFF\x28\0\0\0WAVEfmt \x10\0\0\0\x01\0\x01\0\x40\x1f\0\0\x80\x3e\0\0\x02\0\x10\0data\x04\0\0\0\x0f\0\xf1\xff";

/// Three channels, each with 1 and -1.
const WIDE: &[u8] =
    b"RIFF\x30\0\0\0WAVEfmt \x10\0\0\0\x01\0\x03\0\x40\x1f\0\0\x80\xbb\0\0\x06\0\x10\0data\x0c\0\0\0\x01\0\x01\0\x01\0\xff\xff\xff\xff\xff\xff";

/// How often a stage was started, with which number at last (that of a gain's factor, or 0), how often it was applied, and
/// to how many samples in all.
#[derive(Clone, Drop)]
struct Calls {
    starts: Rc<Cell<u64>>,
    number: Rc<Cell<u64>>,
    applies: Rc<Cell<u64>>,
    samples: Rc<Cell<u64>>,
}

impl Calls {
    fn none(alloc: Global) -> Result<Calls, AllocError> {
        Ok(Calls {
            starts: Rc::new(alloc, Cell::new(0))?,
            number: Rc::new(alloc, Cell::new(0))?,
            applies: Rc::new(alloc, Cell::new(0))?,
            samples: Rc::new(alloc, Cell::new(0))?,
        })
    }

    fn counts(&self) -> (u64, u64, u64) {
        (self.starts.get(), self.applies.get(), self.samples.get())
    }
}

/// A stage that counts its calls.
#[derive(Drop)]
struct Counted<T: Stage> {
    inner: T,
    calls: Calls,
}

fn count_up(count: &Cell<u64>, by: u64) {
    count.set(count.get().saturating_add(by));
}

impl<T: Stage> Stage for Counted<T> {
    ghost stage = { λ counted. T.stage counted.inner };

    fn kind(&self) -> StageKind {
        self.inner.kind()
    }

    fn start(&mut self, setting: &Setting, low: i32, high: i32) {
        count_up(&self.calls.starts, 1);
        self.calls.number.set(match setting {
            Setting::Gain { a, .. } => u64::from(*a),
            _ => 0,
        });
        self.inner.start(setting, low, high);
    }

    fn apply(&mut self, frame: &mut ArrayVec<i32, 256>) {
        count_up(&self.calls.applies, 1);
        count_up(&self.calls.samples, frame.len() as u64);
        self.inner.apply(frame);
    }
}

/// A stage that counts, whose counts come behind those of the others.
fn make_counted<T: Stage>(
    alloc: Global,
    inner: T,
    counts: &mut Vec<Calls>,
) -> Result<Counted<T>, AllocError> {
    let calls = Calls::none(alloc)?;
    counts.push(calls.clone()?)?;
    Ok(Counted { inner, calls })
}

/// What a conversion of the plain file is answered, and the file that it makes.
#[derive(Drop)]
struct Converted {
    status: u8,
    out: Vec<u8>,
    made: Vec<u8>,
}

/// Converts the plain file with a rack and these boxes.
fn convert(
    alloc: Global,
    rack: &str,
    stages: Vec<Box<dyn Stage>>,
) -> Result<Converted, AllocError> {
    let words = words_of(alloc, &["convert", rack, "a.wav", "h.wav"])?;
    let file = PLAIN.to_vec(alloc)?;
    let (script, taps) = (Vec::new(alloc), Vec::new(alloc));
    let mut printed = run_in_memory(alloc, &words, "a.wav", file, script, taps, stages)?;
    let made = match printed.shelf.take("h.wav", false) {
        Ok(disk) => disk.bytes().to_vec(alloc)?,
        Err(_) => Vec::new(alloc),
    };
    Ok(Converted {
        status: printed.status,
        out: printed.out,
        made,
    })
}

/// Whether the first two stages were started once and applied to both frames, and no other was called.
fn are_first_two(counts: &[Calls]) -> bool {
    for (at, calls) in counts.iter().enumerate() {
        let wanted = if at < 2 { (1, 2, 2) } else { (0, 0, 0) };
        if calls.counts() != wanted {
            return false;
        }
    }
    true
}

/// A gain and an inversion are started once and applied to both frames, and no other box is called.
#[test]
fn stages_that_are_handed_in_are_called(rt: HostRuntime) -> Result<(), Fail> {
    let alloc = rt.alloc();
    let mut counts = Vec::new(alloc);
    let mut stages: Vec<Box<dyn Stage>> = Vec::new(alloc);
    // four of each kind, as the program hands them in
    for _ in 0..4u32 {
        stages.push(Box::new(alloc, make_counted(alloc, Gain::new(), &mut counts)?)?)?;
        stages.push(Box::new(alloc, make_counted(alloc, Invert::new(), &mut counts)?)?)?;
        stages.push(Box::new(alloc, make_counted(alloc, Pick::new(), &mut counts)?)?)?;
        stages.push(Box::new(alloc, make_counted(alloc, Fade::new(), &mut counts)?)?)?;
    }
    let done = convert(alloc, "-rack=gain:1/2,invert", stages)?;
    assert_eq!(rt; done.status, 0);
    assert_eq!(rt; done.out.as_slice(), b"ok 2\n".as_slice());
    assert_eq!(rt; done.made.as_slice(), HALVED);
    assert_eq!(rt; counts.len(), 16);
    assert!(rt; are_first_two(&counts));
    Ok(())
}

/// The first box of a kind has the first item, whatever stands before it.
#[test]
fn boxes_serve_in_their_order(rt: HostRuntime) -> Result<(), Fail> {
    let alloc = rt.alloc();
    let mut counts = Vec::new(alloc);
    let mut stages: Vec<Box<dyn Stage>> = Vec::new(alloc);
    stages.push(Box::new(alloc, make_counted(alloc, Invert::new(), &mut counts)?)?)?;
    stages.push(Box::new(alloc, make_counted(alloc, Gain::new(), &mut counts)?)?)?;
    stages.push(Box::new(alloc, make_counted(alloc, Gain::new(), &mut counts)?)?)?;
    let done = convert(alloc, "-rack=gain:3/1,gain:5/1", stages)?;
    assert_eq!(rt; done.status, 0);
    assert_eq!(rt; done.made.as_slice(), RAISED);
    let wanted = [(0, 0, 0), (1, 3, 2), (1, 5, 2)];
    for (calls, (starts, number, applies)) in counts.iter().zip(wanted) {
        assert_eq!(rt; calls.starts.get(), starts);
        assert_eq!(rt; calls.number.get(), number);
        assert_eq!(rt; calls.applies.get(), applies);
    }
    Ok(())
}

/// Each box sees the frames as the boxes before it leave them: here the second inversion sees three times the samples.
#[test]
fn frames_pass_one_box_after_the_other(rt: HostRuntime) -> Result<(), Fail> {
    let alloc = rt.alloc();
    let mut counts = Vec::new(alloc);
    let mut stages: Vec<Box<dyn Stage>> = Vec::new(alloc);
    stages.push(Box::new(alloc, make_counted(alloc, Invert::new(), &mut counts)?)?)?;
    stages.push(Box::new(alloc, make_counted(alloc, Invert::new(), &mut counts)?)?)?;
    stages.push(Box::new(alloc, make_counted(alloc, Pick::new(), &mut counts)?)?)?;
    let done = convert(alloc, "-rack=invert,map:0.0.0,invert", stages)?;
    assert_eq!(rt; done.status, 0);
    assert_eq!(rt; done.made.as_slice(), WIDE);
    let wanted = [(1, 2, 2), (1, 2, 6), (1, 2, 2)];
    for (calls, counted) in counts.iter().zip(wanted) {
        assert_eq!(rt; calls.counts(), counted);
    }
    Ok(())
}
