//! The law of heads, proved of all parameters. The function does nothing: its contract is the law.

ghost use Rattle.snd_pvf.specs.Laws.{HeadsReadBack};

/// A head that is written reads back, whatever data stand behind it.
pub fn written_heads_read_back()
    ensures { HeadsReadBack }
{}
