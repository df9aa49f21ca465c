//! The laws of SPHERE files, proved of every file. The function does nothing: its contract is the laws.

ghost use Rattle.snd_layout.specs.Container.{KeepsLaws};
ghost use Rattle.snd_layout.specs.declared.kind.Kind.TheVariants.{Sphere};
ghost use Rattle.snd_sphere.specs.Container.{sphere};

/// SPHERE files keep the laws that a container owes: what they say stays while a file is edited, and
/// after a crash.
pub fn keeps_laws()
    ensures { KeepsLaws Sphere sphere }
{}
