//! Where the fields of a head lie.

ghost use Rattle.std.specs.Prelude.{◌≡◌, ◌≤◌};
ghost use Rattle.snd_layout.specs.Sector.{is_in_one_sector};

const SECTOR: u64 = 512;

/// A field of a head: the place of its first byte, and how many bytes it has.
#[derive(Clone, Copy, Debug, PartialEq, Eq)]
pub struct Field {
    pub at: u64,
    pub size: u8,
}

/// Whether the first and the last byte of a field lie in one sector of 512 bytes, which a crash leaves
/// whole. The field has at least one byte.
pub fn one_sector(field: Field) -> bool
    requires { 1 ≤ field.size }
    ensures { result ≡ is_in_one_sector field.at field.size }
{
    field.at % SECTOR + u64::from(field.size) <= SECTOR
}
