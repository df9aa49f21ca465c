//! Two bytes as a linear sample, many of them at once, and how many of a law's are read so.

ghost use Rattle.std.specs.Prelude.{◌≡◌, ◌∷◌, [], ◌*◌, length, pos};
ghost use Rattle.snd_fields.specs.declared.field.Order.TheVariants.{Little};
ghost use Rattle.snd_pcm.specs.Pcm.{sample};
ghost use Rattle.snd_pcm.specs.declared.linear.Linear.TheVariants.{S16};

/// How many bytes of a law are read at a time. Few, and a number that the compiler knows: it then unrolls the loops.
pub(crate) const PIECE: usize = 128;

/// The number of a sample of 16 bits, the lowest byte first.
#[inline(always)]
pub(crate) fn number_in(low: u8, high: u8) -> i16
    ensures { result ≡ sample (S16 Little) (low ∷ high ∷ []) }
{
    i16::from_le_bytes([low, high])
}

/// Zero, from the lengths of two slices alone, so that the compiler does not know it: of a number to which it is
/// added the two bytes are read at once, where else the sign would be taken from one of them.
#[inline(always)]
pub(crate) fn nothing(bytes: &[u8], into: &[u8]) -> i16
    requires { length bytes.now ≡ 2 * length into.now }
    ensures { result ≡ pos 0 }
{
    (2 * into.len() - bytes.len()) as i16
}
