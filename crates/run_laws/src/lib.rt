//! The laws of whole runs: the order of replies vanishes, the budget, the replay law, two histories, and the records of a run.
#![tactic(auto)]

ghost use Rattle.run_laws.specs.Claim.{InBudget, OrderVanishes, RecordsThere, ReplayLaw, TwoHistories};
ghost use Rattle.run_laws.specs.Reports.{OrderReports, ReplayReports};
ghost use Rattle.run_laws.specs.Stops.{PostRests, RecordedDraws, StopsBegin, StopsGrow, StopsNext, WaitsAgain};

/// From a grown trace, a run that ends without a reason has the end and the state of the plain run, unless that is spent.
pub fn order_vanishes()
    ensures { OrderVanishes }
{}

/// Over the trace with what a run made, and no replies, the same end and state come, and nothing is made.
pub fn replay_law()
    ensures { ReplayLaw }
{}

/// Two such runs, whose replies and draws agree where both have one, have the same end and the same text.
pub fn two_histories()
    ensures { TwoHistories }
{}

/// Where such a run ends with a value or a throw, the plain run makes each record of the trace that it leaves.
pub fn records_there()
    ensures { RecordsThere }
{}

/// Fuel of at least the fuel of a run times one more than the once records of the trace that it leaves is enough for the plain run.
pub fn in_budget()
    ensures { InBudget }
{}

/// Whatever draws a run had, with the draws of its trace and of what it made the run is the same.
pub fn recorded_draws()
    ensures { RecordedDraws }
{}

/// The records up to a stop are made first, too, with the draws of the trace that the stop leaves.
pub fn stops_begin()
    ensures { StopsBegin }
{}

/// There the next record, where it is no draw, comes next as well.
pub fn stops_next()
    ensures { StopsNext }
{}

/// There a post that came next comes first with no replies and no draws: what its text rests on is in the trace that is left.
pub fn post_rests()
    ensures { PostRests }
{}

/// Over the trace with what a run made that waits, and no replies and no draws, the run waits again and makes nothing.
pub fn waits_again()
    ensures { WaitsAgain }
{}

/// The trace that a stop leaves is again one of a grown history.
pub fn stops_grow()
    ensures { StopsGrow }
{}

/// The replay law of what is told of a run: the same end, output and verdict, and nothing made.
pub fn replay_reports()
    ensures { ReplayReports }
{}

/// The order law of what is told of runs: the plain run has the same end and output with the fuel of the budget.
pub fn order_reports()
    ensures { OrderReports }
{}
