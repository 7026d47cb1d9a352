//! A law of the runs of cells. The function does nothing; its contract is the law.

ghost use Rattle.window_walks.specs.Runs.{RunsOfCells};

/// If a walk pushes the first point of each cell to `Runs`, these are the maximal
/// runs of the cells. They are therefore the waveform of the window that the cells
/// fill.
pub fn runs_of_cells()
    ensures { RunsOfCells }
{}
