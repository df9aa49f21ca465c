ghost use Rattle.std.specs.Prelude.{◌≡◌, ◌+◌, ◌<◌, ◌≤◌, ◌^◌, ◌++◌, ◌∷◌, [], ℕ, List, length, All, Contains, IfSome, IfNone, OnOk, OnErr, true, false};
ghost use Rattle.std.specs.List.{list_any};
ghost use Rattle.snd_disk.specs.Runs.{HasAt};

use std::alloc::{AllocError, Global};

/// Bytes of a file that were read at a place, and where they stand on a tape.
#[derive(Clone, Copy, Debug, PartialEq, Eq)]
pub(crate) struct Window {
    at: u64,
    from: usize,
    len: usize,
}

/// Bytes of a file that were read.
#[derive(Drop)]
pub(crate) struct Windows {
    list: Vec<Window>,
    bytes: Vec<u8>,
    ghost taped: { All (λ w. w.from + w.len ≤ length bytes.items) list.items },
}

fn copy_whole(into: &mut [u8], bytes: &[u8])
    requires { length bytes.now ≡ length into.old }
    ensures { into.new ≡ bytes.now }
{
    into.copy_from_slice(bytes);
}

impl Window {
    ghost use Rattle.snd_plan.specs.Windows.{holds};

    /// Whether so many bytes from a place on are among them.
    fn has(&self, at: u64, count: usize) -> bool
        ensures { result ≡ holds at count self.now }
    {
        if at < self.at {
            return false;
        }
        let skipped = at - self.at;
        let len = self.len as u64;
        skipped <= len && count as u64 <= len - skipped
    }

    /// The first of a list that has so many bytes from a place on.
    fn find(list: &[Window], at: u64, count: usize) -> Option<Window>
        ensures none { IfNone result (list_any (holds at count) list.now ≡ false) }
        ensures held { IfSome result (λ w. list_any (holds at count) list.now ≡ true) }
        ensures within { IfSome result (λ w. holds at count w ≡ true) }
        ensures listed { IfSome result (λ w. Contains list.now w) }
    {
        for w in list {
            if w.has(at, count) {
                return Some(*w);
            }
        }
        None
    }
}

impl Windows {
    ghost use Rattle.snd_plan.specs.Windows.{parts, are_held, HasParts};

    /// Nothing that was read.
    pub(crate) fn new(alloc: Global) -> Windows
        ensures { parts result ≡ [] }
    {
        Windows {
            list: Vec::new(alloc),
            bytes: Vec::new(alloc),
        }
    }

    /// Adds bytes that were read at a place.
    pub(crate) fn add(&mut self, at: u64, bytes: &[u8]) -> Result<(), AllocError>
        ensures added { OnOk result (parts self.new ≡ parts self.old ++ (at, bytes.now) ∷ []) }
        ensures same { OnErr result (parts self.new ≡ parts self.old) }
    {
        let from = self.bytes.len();
        let len = bytes.len();
        self.bytes.extend_from_slice(bytes)?;
        self.list.push(Window { at, from, len })?;
        Ok(())
    }

    /// Copies the bytes from a place on, where one window has them all.
    pub(crate) fn copy(&self, at: u64, into: &mut [u8]) -> bool
        ensures exact { result ≡ are_held (parts self.now) at (length into.old) }
        ensures bytes { result ≡ true → (b : List ℕ) → HasParts b (parts self.now) → HasAt b at into.new }
    {
        let count = into.len();
        let Some(w) = Window::find(&self.list, at, count) else {
            return false;
        };
        let from = w.from + (at - w.at) as usize;
        copy_whole(into, &self.bytes[from..from + count]);
        true
    }

    /// Forgets all that was read, and keeps the room.
    pub(crate) fn clear(&mut self)
        ensures { parts self.new ≡ [] }
    {
        self.list.clear();
        self.bytes.clear();
    }
}
