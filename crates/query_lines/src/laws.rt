//! Laws of the units of every script. The functions do nothing; their contracts are the laws.

ghost use Rattle.query_lines.specs.Laws.{UnitsKeepRequests, UnitsAreWithinLimits};
ghost use Rattle.query_lines.specs.Fit.{UnitsHaveOwnLines, ReadUnitsAreFit, ScriptUnitsAreFit, ReadUnitsAreDetermined, ReadUnitsAreCompleted};

/// The units are the lines' requests in order: each comes exactly once.
pub fn units_keep_requests()
    ensures { UnitsKeepRequests }
{}

/// Each batch of a script has 1 to 64 items, whose budgets and window lengths add up to at most the limits of a batch. Each trim has a
/// number of cells within its limit.
pub fn units_are_within_limits()
    ensures { UnitsAreWithinLimits }
{}

/// The items of a batch are on different lines.
pub fn units_have_own_lines()
    ensures { UnitsHaveOwnLines }
{}

/// The units that a reader has given so far are within their limits, their items are on different lines, and every name in them, of a
/// signal or a file, follows the rules.
pub fn read_units_are_fit()
    ensures { ReadUnitsAreFit }
{}

/// The same holds of all units of a script.
pub fn script_units_are_fit()
    ensures { ScriptUnitsAreFit }
{}

/// Two readers that have taken the same bytes have given the same units.
pub fn read_units_are_determined()
    ensures { ReadUnitsAreDetermined }
{}

/// A reader has given exactly the units that the lines ended in its bytes complete.
pub fn read_units_are_completed()
    ensures { ReadUnitsAreCompleted }
{}
