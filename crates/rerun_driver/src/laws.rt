//! How no run ends.
ghost use Rattle.rerun_driver.specs.Laws.{NeverDiverges, NeverUndrawn};

/// Over an empty trace no run diverges.
pub fn never_diverges()
    ensures { NeverDiverges }
{}

/// Where the draws are the words of a source, no run lacks one.
pub fn never_undrawn()
    ensures { NeverUndrawn }
{}
