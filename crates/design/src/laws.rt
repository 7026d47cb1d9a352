//! The laws of every design. The functions do nothing; their contracts are the laws.

ghost use Rattle.std.specs.Prelude.{ℕ, List};
ghost use Rattle.circuit_meaning.specs.declared.Setting.{Setting};
ghost use Rattle.design.specs.Laws.{OrderIsFree, RepeatsAreFree, RowsAreFollowed};

/// A design keeps the settings of an input in the order of time, one for each time. They mean the same as the rows of the
/// stimulus file in any order.
pub fn order_of_settings_is_free()
    ensures { (settings : List Setting) (t limit : ℕ) → OrderIsFree settings t limit }
{}

/// A design keeps only the settings that change the value of their input. No value hangs on the others, and without them each cell of
/// an input is a whole run of its waveform.
pub fn repeated_settings_are_free()
    ensures inputs { (settings : List Setting) (t limit : ℕ) → RepeatsAreFree settings t limit }
    ensures signals { RowsAreFollowed }
{}
