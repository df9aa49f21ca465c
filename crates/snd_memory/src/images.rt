//! All that a crash may leave of a disk in memory, for tests of what stands on disks.

ghost use Rattle.std.specs.Prelude.{◌≡◌, ◌+◌, ◌<◌, ◌≤◌, ◌^◌, ◌⊎◌, ◌++◌, ◌-◌, List, ℕ, length, take, drop, get_or, replicate, ◌/◌, ◌==◌, if◌then◌else◌, IfOk, OnOk};
ghost use Rattle.std.specs.List.{All};
ghost use Rattle.snd_disk.specs.Bytes.{Mix, over};
ghost use Rattle.snd_memory.specs.Past.{image_after, image_of, image_between, reached, contents_after, contents_by};
ghost use Rattle.snd_memory.specs.Memory.{past_calls, first_bytes};
ghost use Rattle.snd_memory.specs.Listed.{IsOneOf, Adds, IsMixOfLen, IsDoubled, IsMixedFrom, IsNextImage, meant_by, with_sector_of};

use crate::MemoryDisk;
use crate::call::{Call, End, Made};
use crate::memory::{byte_or_zero, partly_changed, put_over};
use std::alloc::{AllocError, Global};

/// Adds a list where none of its bytes is there.
fn add(all: &mut Vec<Vec<u8>>, x: Vec<u8>) -> Result<(), AllocError>
    ensures { OnOk result (Adds all.old.items all.new.items x) }
{
    if !all.contains(&x) {
        all.push(x)?;
    }
    Ok(())
}

/// Adds copies of lists that are not there yet.
fn add_each(alloc: Global, all: &mut Vec<Vec<u8>>, more: &[Vec<u8>]) -> Result<(), AllocError>
    ensures { OnOk result (All (λ x. IsOneOf all.old.items x.items ⊎ IsOneOf more.now x.items) all.new.items) }
{
    for x in more {
        add(all, x.to_vec(alloc)?)?;
    }
    Ok(())
}

/// The byte of z in a sector, and of x elsewhere.
fn byte_of(x: &[u8], z: &[u8], sector: usize, i: usize) -> u8
    ensures { result ≡ (if i / 512 == sector then get_or z.now i 0 else get_or x.now i 0) }
{
    if i / 512 == sector {
        byte_or_zero(z, i)
    } else {
        byte_or_zero(x, i)
    }
}

/// x, with one sector that of z.
fn with_sector(alloc: Global, x: &[u8], z: &[u8], sector: usize) -> Result<Vec<u8>, AllocError>
    ensures { IfOk result (λ v. v.items ≡ with_sector_of x.now z.now sector) }
{
    let mut bytes = Vec::new(alloc);
    for i in 0..x.len() {
        bytes.push(byte_of(x, z, sector, i))?;
    }
    Ok(bytes)
}

/// These lists, and each with one sector that of z.
fn doubled(
    alloc: Global,
    all: &[Vec<u8>],
    z: &[u8],
    sector: usize,
) -> Result<Vec<Vec<u8>>, AllocError>
    ensures { IfOk result (λ v. All (λ x. IsDoubled all.now z.now sector x.items) v.items) }
{
    let mut made = Vec::new(alloc);
    for x in all {
        add(&mut made, x.to_vec(alloc)?)?;
        add(&mut made, with_sector(alloc, x, z, sector)?)?;
    }
    Ok(made)
}

/// The front of y, with zeros past its end.
fn of_length(alloc: Global, y: &[u8], len: usize) -> Result<Vec<u8>, AllocError>
    ensures { IfOk result (λ v. v.items ≡ take len y.now ++ replicate (len - length y.now) 0) }
{
    let mut bytes = y[..len.min(y.len())].to_vec(alloc)?;
    bytes.resize(len, 0)?;
    Ok(bytes)
}

/// The mixes of y and z that have a length.
fn mixes_of_length(
    alloc: Global,
    y: &[u8],
    z: &[u8],
    len: usize,
) -> Result<Vec<Vec<u8>>, AllocError>
    requires { len < 2 ^ 63 }
    ensures { IfOk result (λ v. All (λ x. IsMixOfLen y.now z.now len x.items) v.items) }
{
    let mut all = Vec::new(alloc);
    all.push(of_length(alloc, y, len)?)?;
    for sector in 0..(len + 511) / 512 {
        all = doubled(alloc, &all, z, sector)?;
    }
    Ok(all)
}

/// The mixes of y and z.
fn mixes(alloc: Global, y: &[u8], z: &[u8]) -> Result<Vec<Vec<u8>>, AllocError>
    requires y { length y.now < 2 ^ 63 }
    requires z { length z.now < 2 ^ 63 }
    ensures { IfOk result (λ v. All (λ x. Mix y.now z.now x.items) v.items) }
{
    let mut all = mixes_of_length(alloc, y, z, y.len())?;
    if y.len() == z.len() {
        return Ok(all);
    }
    let longer = mixes_of_length(alloc, y, z, z.len())?;
    add_each(alloc, &mut all, &longer)?;
    Ok(all)
}

/// The mixes of each of these lists and z.
fn mixes_of_each(alloc: Global, all: &[Vec<u8>], z: &[u8]) -> Result<Vec<Vec<u8>>, AllocError>
    requires { length z.now < 2 ^ 63 }
    ensures { IfOk result (λ v. All (λ x. IsMixedFrom all.now z.now x.items) v.items) }
{
    let mut made = Vec::new(alloc);
    for y in all {
        let more = mixes(alloc, y, z)?;
        add_each(alloc, &mut made, &more)?;
    }
    Ok(made)
}

/// b with bytes put at a place.
fn put_into(alloc: Global, b: &[u8], at: u64, from: &[u8]) -> Result<Vec<u8>, AllocError>
    ensures { IfOk result (λ v. v.items ≡ over b.now at from.now) }
{
    let mut bytes = b.to_vec(alloc)?;
    if at >= 1 << 63 || from.len() as u64 >= (1 << 63) - at {
        return Err(AllocError);
    }
    put_over(&mut bytes, at as usize, from)?;
    Ok(bytes)
}

/// What a call meant to leave.
fn meant(alloc: Global, call: &Call, b: &[u8]) -> Result<Vec<u8>, AllocError>
    ensures { IfOk result (λ v. v.items ≡ meant_by call.now b.now) }
{
    match call {
        Call::Write { at, from } => put_into(alloc, b, *at, from),
        Call::Cut { len } => b[..(*len as usize).min(b.len())].to_vec(alloc),
        Call::Sync => b.to_vec(alloc),
    }
}

/// What stands after a call that meant to leave this.
fn left(alloc: Global, end: End, b: &[u8], meant: &[u8]) -> Result<Vec<u8>, AllocError>
    requires b { length b.now < 2 ^ 63 }
    requires meant { length meant.now < 2 ^ 63 }
    ensures { IfOk result (λ v. v.items ≡ reached end b.now meant.now) }
{
    match end {
        End::Done => meant.to_vec(alloc),
        End::Broken { sectors } => partly_changed(alloc, b, meant, sectors),
    }
}

/// The contents after one call more.
fn next_contents(alloc: Global, made: &Made, b: &[u8]) -> Result<Vec<u8>, AllocError>
    requires { length b.now < 2 ^ 63 }
    ensures { IfOk result (λ v. v.items ≡ contents_after made.now b.now) }
{
    let meant = meant(alloc, &made.call, b)?;
    match &made.call {
        Call::Sync => b.to_vec(alloc),
        _ => left(alloc, made.end, b, &meant),
    }
}

/// The images after a sync that ended so.
fn synced_images(
    alloc: Global,
    all: &[Vec<u8>],
    end: End,
    b: &[u8],
) -> Result<Vec<Vec<u8>>, AllocError>
    ensures { IfOk result (λ v. All (λ x. image_after Call.Sync end b.now (IsOneOf all.now) x.items) v.items) }
{
    let mut after = Vec::new(alloc);
    match end {
        End::Done => {
            after.push(b.to_vec(alloc)?)?;
            Ok(after)
        }
        End::Broken { .. } => {
            add_each(alloc, &mut after, all)?;
            Ok(after)
        }
    }
}

/// The images after one call more.
fn next_images(
    alloc: Global,
    all: &[Vec<u8>],
    made: &Made,
    b: &[u8],
) -> Result<Vec<Vec<u8>>, AllocError>
    ensures { IfOk result (λ v. All (λ x. IsNextImage all.now made.now b.now x.items) v.items) }
{
    let meant = meant(alloc, &made.call, b)?;
    match &made.call {
        Call::Sync => synced_images(alloc, all, made.end, b),
        _ => mixes_of_each(alloc, all, &meant),
    }
}

/// Adds copies of lists that are not there yet, where a number lies between two.
fn add_where(
    alloc: Global,
    all: &mut Vec<Vec<u8>>,
    more: &[Vec<u8>],
    k: usize,
    from: usize,
    to: usize,
) -> Result<(), AllocError>
    ensures { OnOk result (All (λ x. IsOneOf all.old.items x.items ⊎ ((from ≤ k) × (k ≤ to) × IsOneOf more.now x.items)) all.new.items) }
{
    if from <= k && k <= to {
        return add_each(alloc, all, more);
    }
    Ok(())
}

/// The images after each number of calls between two numbers, where the first bytes were stable.
fn images_of(
    alloc: Global,
    first: &[u8],
    past: &[Made],
    from: usize,
    to: usize,
) -> Result<Vec<Vec<u8>>, AllocError>
    requires { length first.now < 2 ^ 63 }
    ensures { IfOk result (λ v. All (λ x. image_between first.now past.now from to x.items) v.items) }
{
    let mut listed = Vec::new(alloc);
    let mut bytes = first.to_vec(alloc)?;
    let mut images = Vec::new(alloc);
    images.push(first.to_vec(alloc)?)?;
    for (k, made) in past.iter().enumerate() {
        add_where(alloc, &mut listed, &images, k, from, to)?;
        images = next_images(alloc, &images, made, &bytes)?;
        bytes = next_contents(alloc, made, &bytes)?;
    }
    add_where(alloc, &mut listed, &images, past.len(), from, to)?;
    Ok(listed)
}

/// All that a crash may have left of a disk at some moment between two values of its clock, each once.
/// They are many: two for each sector that a call changes. So this is for small disks.
pub fn images_between(
    alloc: Global,
    disk: &MemoryDisk,
    from: usize,
    to: usize,
) -> Result<Vec<Vec<u8>>, AllocError>
    ensures { IfOk result (λ v. All (λ x. image_between (first_bytes disk.now) (past_calls disk.now) from to x.items) v.items) }
{
    images_of(alloc, disk.first(), disk.past(), from, to)
}
