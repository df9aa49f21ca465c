//! The modes in which a file is open.

ghost use Rattle.std.specs.Prelude.{◌≡◌, Bool, false, true, refl};
ghost use Rattle.std.proofs.Common.{sym};

mod sealed {
    pub trait Sealed {}
}

/// A mode of an open file. Its meaning is whether the file may be written, and so is sealed as it is
/// closed; whether it is made; and how its frames are written.
pub trait Mode: sealed::Sealed {
    ghost WRITES: { Bool };

    /// Whether the file is made, so that its disk holds nothing else.
    ghost MAKES: { Bool };

    /// Whether frames are written at places, so that each sample has a fixed number of bytes.
    ghost PLACES: { Bool };

    /// Whether frames are written by blocks of ADPCM, from front to back.
    ghost ENCODES: { Bool };

    ghost ways: { Self.WRITES ≡ true → Self.ENCODES ≡ false → Self.PLACES ≡ true };

    const WRITES: bool;
}

/// The mode of a file that is read.
pub struct Read;

/// The mode of a file that is made, whose samples have a fixed number of bytes each.
pub struct Write;

/// The mode of a file of ADPCM that is made: frames are written from front to back, and reach the disk by
/// whole blocks.
pub struct Encode;

/// The mode of a file that is read and written.
pub struct Update;

impl sealed::Sealed for Read {}

impl sealed::Sealed for Write {}

impl sealed::Sealed for Encode {}

impl sealed::Sealed for Update {}

impl Mode for Read {
    ghost WRITES = { false };

    ghost MAKES = { false };

    ghost PLACES = { false };

    ghost ENCODES = { false };

    ghost ways = { λ writes by_place. writes };

    const WRITES: bool = false;
}

impl Mode for Write {
    ghost WRITES = { true };

    ghost MAKES = { true };

    ghost PLACES = { true };

    ghost ENCODES = { false };

    ghost ways = { λ writes by_place. refl };

    const WRITES: bool = true;
}

impl Mode for Encode {
    ghost WRITES = { true };

    ghost MAKES = { true };

    ghost PLACES = { false };

    ghost ENCODES = { true };

    ghost ways = { λ writes by_place. sym by_place };

    const WRITES: bool = true;
}

impl Mode for Update {
    ghost WRITES = { true };

    ghost MAKES = { false };

    ghost PLACES = { true };

    ghost ENCODES = { false };

    ghost ways = { λ writes by_place. refl };

    const WRITES: bool = true;
}

/// The modes in which frames are read.
pub trait CanRead: Mode {
    ghost reads: { Self.ENCODES ≡ false };
}

impl CanRead for Read {
    ghost reads = { refl };
}

impl CanRead for Update {
    ghost reads = { refl };
}

/// The modes in which a file is made.
pub trait CanMake: Mode {
    ghost makes: { Self.MAKES ≡ true };

    ghost writes: { Self.WRITES ≡ true };
}

impl CanMake for Write {
    ghost makes = { refl };

    ghost writes = { refl };
}

impl CanMake for Encode {
    ghost makes = { refl };

    ghost writes = { refl };
}

/// The modes in which the head of a file is brought up to its frames.
pub trait CanSeal: Mode {
    ghost writes: { Self.WRITES ≡ true };
}

impl CanSeal for Write {
    ghost writes = { refl };
}

impl CanSeal for Encode {
    ghost writes = { refl };
}

impl CanSeal for Update {
    ghost writes = { refl };
}

/// The modes in which frames are written at places.
pub trait CanWrite: CanSeal {
    ghost places: { Self.PLACES ≡ true };

    ghost by_place: { Self.ENCODES ≡ false };
}

impl CanWrite for Write {
    ghost places = { refl };

    ghost by_place = { refl };
}

impl CanWrite for Update {
    ghost places = { refl };

    ghost by_place = { refl };
}

/// The modes in which a file is cut.
pub trait CanShrink: CanWrite {}

impl CanShrink for Write {}

impl CanShrink for Update {}
