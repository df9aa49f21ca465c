//! Taps that begin and end on an open file.

ghost use Rattle.std.specs.Prelude.{◌≡◌, None};
ghost use Rattle.snd_session.specs.Tapped.{meter_taps};
ghost use Rattle.snd_file.specs.Handle.{known_of};
ghost use Rattle.snd_rules.specs.Rules.{tap_range, tap_rule, untap_rule};
ghost use Rattle.snd_session.specs.Follows.{FeedsFile, Follows};

use snd_container::fixed_form;
use snd_disk::{Disk, Sink};
use snd_edits::Mode;
use snd_fields::Order;
use snd_file::File;
use snd_layout::Codec;
use snd_meters::Meters;
use snd_pcm::Linear;
use snd_rules::{Reply, StepFault, refuse, say_report, say_text};
use snd_taps::{Tap, TapKind};

// The form whose range the numbers of a codec have.
fn tap_range(codec: Codec) -> Linear
    ensures { result ≡ tap_range codec }
{
    match fixed_form(codec) {
        Some(form) => form.range_form(),
        None => Linear::S16(Order::Little),
    }
}

/// Starts the first tap of a kind that waits.
pub fn tap<'d, D: Disk, M: Mode, O: Sink>(
    file: &File<'d, D, M>,
    meters: &mut Meters,
    kind: TapKind,
    out: &mut O,
) -> Result<Reply, StepFault>
    requires { (known_of file.now).broken ≡ None }
    ensures follows { Follows D.Disk O.Sink (tap_rule (meter_taps (λ b. meter b) meters.old) kind) result file.now out.old file.now out.new }
    ensures taps { FeedsFile D.state (tap_rule (meter_taps (λ b. meter b) meters.old) kind) result file.now (meter_taps (λ b. meter b) meters.old) (meter_taps (λ b. meter b) meters.new) }
{
    let range = tap_range(file.params().codec);
    match meters.start(kind, range.low(), range.high()) {
        Ok(()) => say_text(out, b"ok\n"),
        Err(refusal) => refuse(out, refusal),
    }
}

/// Drops the tap of a kind that is on, and says what it saw.
pub fn untap<'d, D: Disk, M: Mode, O: Sink>(
    _file: &File<'d, D, M>,
    meters: &mut Meters,
    kind: TapKind,
    out: &mut O,
) -> Result<Reply, StepFault>
    requires { (known_of _file.now).broken ≡ None }
    ensures follows { Follows D.Disk O.Sink (untap_rule (meter_taps (λ b. meter b) meters.old) kind) result _file.now out.old _file.now out.new }
    ensures taps { FeedsFile D.state (untap_rule (meter_taps (λ b. meter b) meters.old) kind) result _file.now (meter_taps (λ b. meter b) meters.old) (meter_taps (λ b. meter b) meters.new) }
{
    match meters.stop(kind) {
        Ok(state) => say_report(out, kind, state),
        Err(refusal) => refuse(out, refusal),
    }
}
