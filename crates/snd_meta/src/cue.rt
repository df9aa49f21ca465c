//! Cue points.

ghost use Rattle.std.specs.Prelude.{◌≡◌, ◌⊎◌, ◌↔◌, ◌+◌, ◌*◌, ◌^◌, ◌<◌, ◌≤◌, ◌++◌, length, take, drop, slice_get, Some, None, IfOk, OnOk, IfErr, OnErr, IsErrOf, IsTrue};
ghost use Rattle.snd_meta.specs.Cue.{points_of, point_bytes, IsCues};

use crate::error::MetaError;
use snd_fields::{Order, u32_at};
use std::alloc::{AllocError, Global};
use std::marker::Model;

/// A point in the sound: its name, and its place in frames.
#[derive(Clone, Copy, Debug, PartialEq, Eq)]
pub struct CuePoint {
    pub name: u32,
    pub offset: u32,
}

/// The points of a `cue ` chunk. Contracts see a list of points.
#[derive(Drop)]
pub struct CueList {
    points: Vec<CuePoint>,
}

impl Model for CueList {
    ghost use Rattle.std.specs.Prelude.{List};
    ghost use Rattle.snd_meta.specs.declared.cue.CuePoint.{CuePoint};

    ghost Value = { List CuePoint };

    ghost use Rattle.snd_meta.specs.Cue.{IsCues};

    ghost view = { λ s. s.points.items };

    ghost invariant = { λ s. IsCues s.points.items };
}

/// The first `count` points of these bytes.
fn points_at(alloc: Global, bytes: &[u8], count: usize) -> Result<Vec<CuePoint>, AllocError>
    requires room { 24 * count ≤ length bytes.now }
    requires few { count < 2 ^ 32 }
    ensures read { IfOk result (λ points. points.items ≡ points_of count bytes.now) }
    ensures info { IfOk result (λ points. IsCues points.items) }
{
    let mut points = Vec::with_capacity(alloc, count)?;
    let mut rest = bytes;
    for _ in 0..count {
        points.push(CuePoint {
            name: u32_at(rest, 0, Order::Little),
            offset: u32_at(rest, 20, Order::Little),
        })?;
        rest = &rest[24..];
    }
    Ok(points)
}

/// Appends a point as it stands in a body: its name, its place, the id of the chunk of samples, two starts
/// that are 0, and its place again.
fn push_point(body: &mut Vec<u8>, point: CuePoint) -> Result<(), AllocError>
    ensures { OnOk result (body.new.items ≡ body.old.items ++ point_bytes point) }
{
    body.extend_from_slice(&point.name.to_le_bytes())?;
    body.extend_from_slice(&point.offset.to_le_bytes())?;
    body.extend_from_slice(b"data\0\0\0\0\0\0\0\0")?;
    body.extend_from_slice(&point.offset.to_le_bytes())?;
    Ok(())
}

impl CueList {
    ghost use Rattle.snd_meta.specs.Cue.{cues_of, cue_body, named};

    /// The points of a body: each one's name and sample offset.
    ///
    /// # Errors
    ///
    /// `BadCue` exactly where the body is shorter than its count and the points that this says; `Memory`.
    #[tactic(auto, unfolding(crate::specs::Cue::cues_of))]
    pub fn read(alloc: Global, body: &[u8]) -> Result<CueList, MetaError>
        requires { length body.now ≤ 65536 }
        ensures read { IfOk result (λ list. cues_of body.now ≡ Some list) }
        // A list that is not changed is written with the points that the body had.
        ensures again { IfOk result (λ list. cues_of (cue_body list) ≡ cues_of body.now) }
        ensures bad { IsErrOf result MetaError.BadCue ↔ (cues_of body.now ≡ None) }
        ensures only { IfErr result (λ e. (e ≡ MetaError.BadCue) ⊎ (e ≡ MetaError.Memory)) }
    {
        if body.len() < 4 {
            return Err(MetaError::BadCue);
        }
        let count = u32_at(body, 0, Order::Little) as usize;
        if body.len() < 4 + 24 * count {
            return Err(MetaError::BadCue);
        }
        let points = points_at(alloc, &body[4..], count)?;
        Ok(CueList { points })
    }

    /// A point at each place, with the names 1, 2, 3 and so on.
    ///
    /// # Errors
    ///
    /// `Memory`.
    pub fn from_places(alloc: Global, places: &[u32]) -> Result<CueList, MetaError>
        requires { length places.now < 2 ^ 32 }
        ensures named { IfOk result (λ list. list ≡ named 1 places.now) }
        ensures only { IfErr result (λ e. e ≡ MetaError.Memory) }
    {
        let mut points = Vec::with_capacity(alloc, places.len())?;
        for (i, place) in places.iter().enumerate() {
            points.push(CuePoint {
                name: i as u32 + 1,
                offset: *place,
            })?;
        }
        Ok(CueList { points })
    }

    /// How many points there are.
    pub fn len(&self) -> usize
        ensures { result ≡ length self.now }
    {
        self.points.len()
    }

    /// Whether there are none.
    pub fn is_empty(&self) -> bool
        ensures { IsTrue result ↔ (length self.now ≡ 0) }
    {
        self.points.is_empty()
    }

    /// The point at a place, counted from 0: none from the length on.
    pub fn get(&self, at: usize) -> Option<CuePoint>
        ensures { result ≡ slice_get self.now at }
    {
        self.points.get(at).copied()
    }

    /// The body that holds these points.
    #[tactic(auto, unfolding(crate::specs::Cue::cue_body))]
    fn body(&self) -> Result<Vec<u8>, AllocError>
        ensures written { IfOk result (λ body. body.items ≡ cue_body self.now) }
        ensures again { OnOk result (cues_of (cue_body self.now) ≡ Some self.now) }
    {
        let mut body = Vec::new(*self.points.allocator());
        body.extend_from_slice(&(self.points.len() as u32).to_le_bytes())?;
        for point in &self.points {
            push_point(&mut body, *point)?;
        }
        Ok(body)
    }

    /// Appends the body that holds these points: each one's name, and its offset as position and as sample
    /// offset. After an error `into` is as before.
    ///
    /// # Errors
    ///
    /// `Memory`.
    pub fn put(&self, into: &mut Vec<u8>) -> Result<(), MetaError>
        ensures written { OnOk result (into.new.items ≡ into.old.items ++ cue_body self.now) }
        // What is written is read again as the same list.
        ensures again { OnOk result (cues_of (cue_body self.now) ≡ Some self.now) }
        ensures only { IfErr result (λ e. e ≡ MetaError.Memory) }
        ensures same { OnErr result (into.new.items ≡ into.old.items) }
    {
        let body = self.body()?;
        into.extend_from_slice(&body)?;
        Ok(())
    }
}
