ghost use Rattle.std.specs.Prelude.{◌≡◌, ◌+◌, ◌<◌, ◌≤◌, ◌^◌, ◌++◌, ◌∷◌, [], List, length, drop, All, OnOk, OnErr, IfSome, slice_get};
ghost use Rattle.snd_plan.specs.Operations.{Operation, tape_end, file_end};

use crate::Planned;
use std::alloc::{AllocError, Global};

/// Operations that are to be carried out on a file, in their order. Those before `next` were carried
/// out already.
#[derive(Drop)]
pub(crate) struct Plan {
    steps: Vec<Planned>,
    tape: Vec<u8>,
    next: usize,
    ghost taped: { All (λ s. tape_end s ≤ length tape.items) steps.items },
    ghost placed: { All (λ s. file_end s < 2 ^ 63) steps.items },
    ghost within: { next ≤ length steps.items },
}

impl Plan {
    ghost use Rattle.snd_plan.specs.Plans.{operations, steps_left};

    /// A plan of nothing.
    pub(crate) fn new(alloc: Global) -> Plan
        ensures { operations result ≡ [] }
    {
        Plan {
            steps: Vec::new(alloc),
            tape: Vec::new(alloc),
            next: 0,
        }
    }

    /// Notes that bytes are to be put at a place.
    pub(crate) fn write(&mut self, at: u64, bytes: &[u8]) -> Result<(), AllocError>
        requires { at + length bytes.now < 2 ^ 63 }
        ensures noted { OnOk result (operations self.new ≡ operations self.old ++ Operation.write at bytes.now ∷ []) }
        ensures same { OnErr result (operations self.new ≡ operations self.old) }
    {
        let from = self.tape.len();
        let len = bytes.len();
        self.tape.extend_from_slice(bytes)?;
        self.steps.push(Planned::Write { at, from, len })?;
        Ok(())
    }

    /// Notes that the file is to be shortened to a length.
    pub(crate) fn cut(&mut self, len: u64) -> Result<(), AllocError>
        ensures noted { OnOk result (operations self.new ≡ operations self.old ++ Operation.cut len ∷ []) }
        ensures same { OnErr result (operations self.new ≡ operations self.old) }
    {
        self.steps.push(Planned::Cut { len })?;
        Ok(())
    }

    /// Notes that what the file holds is to be made stable.
    pub(crate) fn sync(&mut self) -> Result<(), AllocError>
        ensures noted { OnOk result (operations self.new ≡ operations self.old ++ Operation.sync ∷ []) }
        ensures same { OnErr result (operations self.new ≡ operations self.old) }
    {
        self.steps.push(Planned::Sync)?;
        Ok(())
    }

    /// The operations that are left.
    pub(crate) fn steps(&self) -> &[Planned]
        ensures { result.now ≡ steps_left self.now }
    {
        &self.steps[self.next..]
    }

    /// The first operation that is left.
    pub(crate) fn first(&self) -> Option<Planned>
        ensures first { result ≡ slice_get (steps_left self.now) 0 }
        ensures taped { IfSome result (λ s. tape_end s ≤ length self.now.tape.items) }
        ensures placed { IfSome result (λ s. file_end s < 2 ^ 63) }
    {
        self.steps.get(self.next).copied()
    }

    /// The tape, with the bytes of all writes that are left.
    pub(crate) fn tape(&self) -> &[u8]
        ensures { result.now ≡ self.now.tape.items }
    {
        &self.tape
    }

    /// Leaves out the first operation. Once none is left, the room is kept for the next plan.
    pub(crate) fn advance(&mut self)
        ensures { operations self.new ≡ drop 1 (operations self.old) }
    {
        if self.next + 1 < self.steps.len() {
            self.next += 1;
        } else {
            self.steps.clear();
            self.tape.clear();
            self.next = 0;
        }
    }
}
