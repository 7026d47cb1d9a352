//! Replies to items and questions.

use gate_values::Value;
use why_proofs::CellList;
use window_walks::Runs;

/// What becomes of a window that was asked for: the answer, or why there is none.
#[derive(Drop)]
pub enum Outcome<T> {
    /// It was answered.
    Answer(T),
    /// It needs more evaluations than this budget.
    Budget(u32),
    /// No signal has the name.
    Unknown,
    /// The window ends after the horizon.
    Past,
}

/// The reply to an item.
#[derive(Drop)]
pub enum Reply {
    /// To a window: the maximal runs of the signal inside it.
    Window(Outcome<Runs>),
    /// The line has none of the forms.
    BadLine,
}

/// Why a signal has a value at a time: it has this value, by a proof with these cell lines.
#[derive(Drop)]
pub struct Explanation {
    pub cells: CellList,
    pub value: Value,
}

/// The reply to a question.
#[derive(Drop)]
pub enum QuestionReply {
    /// When the signal first has the value: at this time of the window, or at none.
    First(Outcome<Option<u32>>),
    /// Why the signal has its value.
    Why(Outcome<Explanation>),
    /// The maximal runs of the signal inside the window, with another signal stuck.
    Stuck(Outcome<Runs>),
    /// No signal has the name of the stuck signal.
    UnknownSite,
}

/// The reply to a request for a dump of the last batch's waves.
#[derive(Clone, Copy, Debug, PartialEq, Eq)]
pub enum VcdReply {
    /// A file of the session already has that name.
    Taken,
    /// No batch was served before.
    NoBatch,
    /// The session has made its greatest number of dumps.
    Full,
    /// The dump was made, with this many wires.
    Made(u32),
}
