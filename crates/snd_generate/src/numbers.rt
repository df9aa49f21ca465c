//! Numbers from a seed.

ghost use Rattle.std.specs.Prelude.{◌≡◌, ◌<◌, ◌^◌, All, length};
ghost use Rattle.snd_pcm.specs.Width.{HasWidth};
ghost use Rattle.snd_generate.specs.Numbers.{next, number_of, numbers_from, state_after};

// The state behind another.
#[inline]
#[tactic(auto, unfolding(crate::specs::Numbers::next))]
fn next(state: u64) -> u64
    requires { state < 2 ^ 32 }
    ensures value { result ≡ next state }
    ensures small { result < 2 ^ 32 }
{
    (1_664_525 * state + 1_013_904_223) % 4_294_967_296
}

// The number that a state gives.
#[inline]
#[tactic(auto, unfolding(crate::specs::Numbers::number_of))]
fn number_of(state: u64) -> i32
    requires { state < 2 ^ 32 }
    ensures value { result ≡ number_of state }
    ensures in_range { HasWidth 16 result }
{
    (state / 65_536) as i32 - 32_768
}

/// Fills a slice with the numbers behind a state. The answer is the state of the last one.
pub(crate) fn fill(block: &mut [i32], state: u64) -> u64
    requires { state < 2 ^ 32 }
    ensures numbers { block.new ≡ numbers_from (length block.old) state }
    ensures state { result ≡ state_after (length block.old) state }
    ensures small { result < 2 ^ 32 }
{
    let mut last = state;
    for number in block.iter_mut() {
        last = next(last);
        *number = number_of(last);
    }
    last
}
