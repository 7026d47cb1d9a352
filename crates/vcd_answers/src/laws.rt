//! A law of every dump. The function does nothing; its contract is the law.
ghost use Rattle.vcd_answers.specs.Laws.{OneDump};

/// No text is the dump of two lists of wires: its bytes determine its wires.
pub fn one_dump()
    ensures { OneDump }
{}
