//! The laws of Creative Voice files, proved of every file. The function does nothing: its contract is the
//! laws.

ghost use Rattle.snd_layout.specs.Container.{KeepsLaws};
ghost use Rattle.snd_layout.specs.declared.kind.Kind.TheVariants.{Voc};
ghost use Rattle.snd_voc.specs.Container.{voc};

/// A Creative Voice file says its layout as long as what stands before its data stays, whatever number
/// its block's size has room for; its fields, and what closes its data, are as the layers above want them.
#[tactic(auto, using(crate::proofs::Kept::keeps_laws))]
pub fn keeps_laws()
    ensures { KeepsLaws Voc voc }
{}
