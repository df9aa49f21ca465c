//! The laws of Wave64 as a container. The function does nothing: its contract is the laws.

ghost use Rattle.snd_layout.specs.Container.{KeepsLaws};
ghost use Rattle.snd_layout.specs.declared.kind.Kind.TheVariants.{W64};
ghost use Rattle.snd_w64.specs.Container.{w64};

/// Whatever a file holds: what it says of itself keeps the rule of all layouts; it says the same, but for
/// the count of its frames, while its fields are brought up to a number of frames, at each moment at which
/// a crash may cut this short; the fields stand apart and hold their values; and a file that is made says
/// what it was made with.
pub fn keeps_laws()
    ensures { KeepsLaws W64 w64 }
{}
