//! The modes in which a tool makes a file.

ghost use Rattle.std.specs.Prelude.{◌≡◌, [], ◌/◌, IfOk, None, OnOk, length};
ghost use Rattle.snd_disk.specs.Device.{GoesOnFrom, WritesAtMost};
ghost use Rattle.snd_layout.specs.Blocks.{is_adpcm};
ghost use Rattle.snd_layout.specs.Fit.{fit_refusal};
ghost use Rattle.snd_file.specs.Bytes.{sources_of};
ghost use Rattle.snd_edits.specs.Known.{IsFresh};
ghost use Rattle.snd_file.specs.Handle.{channels_of, disk_of, known_of, loan_of};
ghost use Rattle.snd_opening.specs.Opening.{answer_of, disk_after, loan_after};
ghost use Rattle.snd_file.specs.Outcomes.{AsksNothing, TellsOn};
ghost use Rattle.snd_edits.specs.Relaid.{shape_with};
ghost use Rattle.snd_patch.specs.Steps.{StillTells};
ghost use Rattle.snd_output.specs.Appended.{CountsFile, Gains, IsAtEnd, LeavesFile, MayGive, MayPass};
ghost use Rattle.snd_output.specs.Ends.{BeginsFile, CountsStop, IsUnchanged, stop_of};

use crate::stop::Stop;
use snd_disk::Disk;
use snd_edits::{CanMake, Encode, Write, WriteError};
use snd_file::File;
use snd_layout::{Kind, OpenError, Params};
use snd_opening::{create, create_blocks};
use std::alloc::Global;

// What stops a tool whose file is not made.
fn stop_of(error: OpenError) -> Stop
    ensures { result ≡ stop_of error }
{
    match error {
        OpenError::Memory => Stop::Memory,
        _ => Stop::Fault,
    }
}

/// The modes in which a tool makes a file, by its codec: ADPCM block by block, and each other frame by frame.
pub trait Making: CanMake {
    /// Begins a sound file of a kind that holds the parameters, without chunks and frames, on a disk, whatever
    /// it held before. The codec is one of this mode. It writes at most 2048 bytes and reads none.
    ///
    /// `Fault` where a call of the disk failed; `Memory` where there is none. The disk comes back with it.
    fn begin<'d, E: Disk>(
        alloc: Global,
        disk: &'d mut E,
        kind: Kind,
        params: Params,
    ) -> Result<File<'d, E, Self>, (Stop, &'d mut E)>
        requires fits { fit_refusal kind params ≡ None }
        requires codec { is_adpcm params.codec ≡ Self.ENCODES }
        ensures lends { loan_after result ≡ disk.entry.ghost_name }
        ensures begun { BeginsFile E.state kind params disk.old result }
        ensures fresh { IfOk result (λ f. IsFresh (known_of f)) }
        ensures shape { IfOk result (λ f. (known_of f).shape ≡ shape_with kind params []) }
        ensures faults { CountsStop (E.state disk.old).faults (E.state (disk_after result)).faults (answer_of result) }
        ensures unchanged { IsUnchanged (answer_of result) }
        ensures tells { StillTells (E.state disk.old) (E.state (disk_after result)) }
        ensures time { GoesOnFrom E.state E.left_between disk.old (disk_after result) }
        ensures written { WritesAtMost E.state 2048 disk.old (disk_after result) }
        ensures asked { (E.state (disk_after result)).asked ≡ (E.state disk.old).asked };

    /// Gives a file frames behind those that it was given. It takes no memory. `Fault` where a call of the
    /// disk failed: from then on the file is broken.
    fn give<E: Disk>(to: &mut File<'_, E, Self>, from: &[i32]) -> Result<(), Stop>
        requires may { MayGive from.now (known_of to.old) }
        ensures loan { loan_of to.new ≡ loan_of to.old }
        ensures left { LeavesFile (length from.now / channels_of to.old) to.old to.new result }
        ensures gains { OnOk result (Gains E.state from.now to.old to.new) }
        ensures faults { CountsFile E.state to.old to.new result }
        ensures tells { TellsOn E.state to.old to.new }
        ensures time { GoesOnFrom E.state E.left_between (disk_of to.old) (disk_of to.new) }
        ensures asked { AsksNothing E.state to.old to.new };

    /// Gives a file frames, as `give` does, as the bytes of their samples. The slice holds whole frames. To a
    /// file of ADPCM it gives none, since bytes alone stand for no numbers there.
    fn give_bytes<E: Disk>(to: &mut File<'_, E, Self>, from: &[u8]) -> Result<(), Stop>
        requires may { MayPass from.now (known_of to.old) }
        ensures loan { loan_of to.new ≡ loan_of to.old }
        ensures left { LeavesFile (length (sources_of to.old from.now) / channels_of to.old) to.old to.new result }
        ensures gains { OnOk result (Gains E.state (sources_of to.old from.now) to.old to.new) }
        ensures faults { CountsFile E.state to.old to.new result }
        ensures tells { TellsOn E.state to.old to.new }
        ensures time { GoesOnFrom E.state E.left_between (disk_of to.old) (disk_of to.new) }
        ensures asked { AsksNothing E.state to.old to.new };

    /// How many frames it was given.
    fn given<E: Disk>(to: &File<'_, E, Self>) -> u64
        requires { IsAtEnd (known_of to.now) }
        ensures { result ≡ (known_of to.now).write_place };
}

impl Making for Write {
    fn begin<'d, E: Disk>(
        alloc: Global,
        disk: &'d mut E,
        kind: Kind,
        params: Params,
    ) -> Result<File<'d, E, Write>, (Stop, &'d mut E)> {
        params.are_good();
        match create(alloc, disk, kind, params) {
            Ok(file) => Ok(file),
            Err((error, back)) => Err((stop_of(error), back)),
        }
    }

    fn give<E: Disk>(to: &mut File<'_, E, Write>, from: &[i32]) -> Result<(), Stop> {
        match to.write_frames(from) {
            Ok(()) => Ok(()),
            Err(WriteError::DiskFault(_)) => Err(Stop::Fault),
            Err(_) => unreachable!(),
        }
    }

    fn give_bytes<E: Disk>(to: &mut File<'_, E, Write>, from: &[u8]) -> Result<(), Stop> {
        match to.write_bytes(from) {
            Ok(()) => Ok(()),
            Err(WriteError::DiskFault(_)) => Err(Stop::Fault),
            Err(_) => unreachable!(),
        }
    }

    fn given<E: Disk>(to: &File<'_, E, Write>) -> u64 {
        to.frames()
    }
}

impl Making for Encode {
    fn begin<'d, E: Disk>(
        alloc: Global,
        disk: &'d mut E,
        kind: Kind,
        params: Params,
    ) -> Result<File<'d, E, Encode>, (Stop, &'d mut E)> {
        params.are_good();
        match create_blocks(alloc, disk, kind, params) {
            Ok(file) => Ok(file),
            Err((error, back)) => Err((stop_of(error), back)),
        }
    }

    fn give<E: Disk>(to: &mut File<'_, E, Encode>, from: &[i32]) -> Result<(), Stop> {
        match to.encode_frames(from) {
            Ok(()) => Ok(()),
            Err(WriteError::DiskFault(_)) => Err(Stop::Fault),
            Err(_) => unreachable!(),
        }
    }

    fn give_bytes<E: Disk>(_to: &mut File<'_, E, Encode>, _from: &[u8]) -> Result<(), Stop> {
        Ok(())
    }

    fn given<E: Disk>(to: &File<'_, E, Encode>) -> u64 {
        to.frames_given()
    }
}
