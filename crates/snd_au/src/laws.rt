//! What AU files owe the layers above, proved of every file. The function does nothing: its contract is
//! the laws.

ghost use Rattle.snd_fields.specs.declared.field.Order.TheVariants.{Little, Big};
ghost use Rattle.snd_layout.specs.Container.{KeepsLaws};
ghost use Rattle.snd_layout.specs.declared.kind.Kind.TheVariants.{Au, Dns};
ghost use Rattle.snd_au.specs.Container.{au};

/// AU files keep the laws of a container, in both byte orders.

pub fn keeps_laws()
    ensures big { KeepsLaws Au (au Big) }
    ensures little { KeepsLaws Dns (au Little) }
{}
