//! Strands: one suspended demand each, as a value.
//!
//! A strand serves a query. It asks for the points that its window and its claimed points wait for, one after another. It
//! evaluates a claimed point once it has heard all its children. `specs/Strands.antt` defines its next step, and the strand
//! after each step. The functions here have laws as contracts, and do nothing.

ghost use Rattle.plan_machine.specs.StrandLaws.{StrandsAskWhatIsNeeded, WaitsAreEarlier, StrandsStay};

use valid_intervals::Point;

/// The next step of a strand.
#[derive(Clone, Copy, Debug, PartialEq, Eq)]
pub enum Next {
    /// It asks for a point.
    Ask(Point),
    /// The claimed point on top of the stack has heard all its children, and is filled.
    Fill(Point),
    /// The budget is spent, and the claimed point on top of the stack is dropped.
    Drop(Point),
    /// It has ended.
    Done,
}

/// A query of the batch with the strand's number needs every point that the strand asks for or holds.
pub fn strands_ask_what_is_needed()
    ensures { StrandsAskWhatIsNeeded }
{}

/// A strand waits for a point that is earlier than every point that it holds, so no cycle of waiting strands exists.
pub fn waits_are_earlier()
    ensures { WaitsAreEarlier }
{}

/// Each step of a strand leaves a strand.
pub fn strands_stay()
    ensures { StrandsStay }
{}
