//! Linear samples of 16 bits as those of more.
#![tactic(auto, using(crate::proofs::Loops::three_all, crate::proofs::Loops::three_step, crate::proofs::Loops::wide_all))]

ghost use Rattle.std.specs.Prelude.{◌≡◌, ◌∷◌, [], ◌+◌, ◌-◌, ◌*◌, ◌/◌, ◌%◌, ◌<◌, ◌≤◌, get_or, length, map, set};
ghost use Rattle.snd_fields.specs.declared.field.Order.TheVariants.{Little};
ghost use Rattle.snd_pcm.specs.Pcm.{sample, sample_bytes, samples, samples_bytes};
ghost use Rattle.snd_pcm.specs.Width.{changed};
ghost use Rattle.snd_pcm.specs.declared.linear.Linear.TheVariants.{S16, S24, S32};
ghost use Rattle.snd_recode.specs.Wider.{ArePut};

// The bytes of a sample of 16 bits as those of one of 24.
#[inline(always)]
fn three_bytes(low: u8, high: u8) -> [u8; 3]
    ensures { result ≡ sample_bytes (S24 Little) (changed 16 24 (sample (S16 Little) (low ∷ high ∷ []))) }
{
    [0, low, high]
}

// Puts three bytes at the place of a sample of 24 bits.
#[inline(always)]
fn put_three(into: &mut [u8], i: usize, three: [u8; 3])
    requires { 3 * i + 2 < length into.old }
    ensures { into.new ≡ set (set (set into.old (3 * i) (get_or three 0 0)) (3 * i + 1) (get_or three 1 0)) (3 * i + 2) (get_or three 2 0) }
{
    into[3 * i] = three[0];
    into[3 * i + 1] = three[1];
    into[3 * i + 2] = three[2];
}

// The bytes of a sample of 16 bits as those of one of 32.
#[inline(always)]
fn four_bytes(low: u8, high: u8) -> [u8; 4]
    ensures { result ≡ sample_bytes (S32 Little) (changed 16 32 (sample (S16 Little) (low ∷ high ∷ []))) }
{
    [0, 0, low, high]
}

// Puts four bytes at the place of a sample of 32 bits.
#[inline(always)]
fn put_four(into: &mut [u8], i: usize, four: [u8; 4])
    requires { 4 * i + 3 < length into.old }
    ensures { into.new ≡ set (set (set (set into.old (4 * i) (get_or four 0 0)) (4 * i + 1) (get_or four 1 0)) (4 * i + 2) (get_or four 2 0)) (4 * i + 3) (get_or four 3 0) }
{
    into[4 * i] = four[0];
    into[4 * i + 1] = four[1];
    into[4 * i + 2] = four[2];
    into[4 * i + 3] = four[3];
}

// Samples of 16 bits as those of 24, five at a time and the first byte of the one behind them, as far as they go: all
// five are read before 16 bytes are put, which lets the compiler move them at once.
fn widen_fives(bytes: &[u8], into: &mut [u8])
    requires whole { length bytes.now % 2 ≡ 0 }
    requires room { 2 * length into.old ≡ 3 * length bytes.now }
    ensures { ArePut (S24 Little) (5 * ((length bytes.now - 1) / 10)) bytes.now into.new }
{
    for i in 0..bytes.len().saturating_sub(1) / 10 {
        let (one, two, three, four, five) = (5 * i, 5 * i + 1, 5 * i + 2, 5 * i + 3, 5 * i + 4);
        let first = three_bytes(bytes[2 * one], bytes[2 * one + 1]);
        let second = three_bytes(bytes[2 * two], bytes[2 * two + 1]);
        let third = three_bytes(bytes[2 * three], bytes[2 * three + 1]);
        let fourth = three_bytes(bytes[2 * four], bytes[2 * four + 1]);
        let last = three_bytes(bytes[2 * five], bytes[2 * five + 1]);
        put_three(into, one, first);
        put_three(into, two, second);
        put_three(into, three, third);
        put_three(into, four, fourth);
        put_three(into, five, last);
        // the next sample's lowest byte, which is put again with it
        into[15 * i + 15] = 0;
    }
}

// .. and those from one on, one by one
fn widen_rest(from: usize, bytes: &[u8], into: &mut [u8])
    requires whole { length bytes.now % 2 ≡ 0 }
    requires room { 2 * length into.old ≡ 3 * length bytes.now }
    requires within { from ≤ length bytes.now / 2 }
    requires so_far { ArePut (S24 Little) from bytes.now into.old }
    ensures { into.new ≡ samples_bytes (S24 Little) (map (changed 16 24) (samples (S16 Little) bytes.now)) }
{
    for i in from..bytes.len() / 2 {
        put_three(into, i, three_bytes(bytes[2 * i], bytes[2 * i + 1]));
    }
}

/// Samples of 16 bits as those of 24, the lowest byte first in both. `into` has just enough places.
pub(crate) fn widen_to_24(bytes: &[u8], into: &mut [u8])
    requires whole { length bytes.now % 2 ≡ 0 }
    requires room { 2 * length into.old ≡ 3 * length bytes.now }
    ensures { into.new ≡ samples_bytes (S24 Little) (map (changed 16 24) (samples (S16 Little) bytes.now)) }
{
    widen_fives(bytes, into);
    widen_rest(5 * (bytes.len().saturating_sub(1) / 10), bytes, into);
}

// Samples of 16 bits as those of 32, four at a time, as far as they go: all four are read before 16 bytes are put.
fn widen_fours(bytes: &[u8], into: &mut [u8])
    requires whole { length bytes.now % 2 ≡ 0 }
    requires room { length into.old ≡ 2 * length bytes.now }
    ensures { ArePut (S32 Little) (4 * (length bytes.now / 8)) bytes.now into.new }
{
    for i in 0..bytes.len() / 8 {
        let (one, two, three, four) = (4 * i, 4 * i + 1, 4 * i + 2, 4 * i + 3);
        let first = four_bytes(bytes[2 * one], bytes[2 * one + 1]);
        let second = four_bytes(bytes[2 * two], bytes[2 * two + 1]);
        let third = four_bytes(bytes[2 * three], bytes[2 * three + 1]);
        let last = four_bytes(bytes[2 * four], bytes[2 * four + 1]);
        put_four(into, one, first);
        put_four(into, two, second);
        put_four(into, three, third);
        put_four(into, four, last);
    }
}

/// Samples of 16 bits as those of 32, the lowest byte first in both. `into` has just enough places.
pub(crate) fn widen_to_32(bytes: &[u8], into: &mut [u8])
    requires whole { length bytes.now % 2 ≡ 0 }
    requires room { length into.old ≡ 2 * length bytes.now }
    ensures { into.new ≡ samples_bytes (S32 Little) (map (changed 16 32) (samples (S16 Little) bytes.now)) }
{
    widen_fours(bytes, into);
    for i in 4 * (bytes.len() / 8)..bytes.len() / 2 {
        put_four(into, i, four_bytes(bytes[2 * i], bytes[2 * i + 1]));
    }
}
