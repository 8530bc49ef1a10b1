// What the verifier's acceptance means for every run.

ghost use Rattle.udf_run.specs.Safe.{AcceptedRunsWell, CheckedRunsWithin};

/// An accepted program never traps, on any block, and stays within its cost, its pairs and its intervals.
pub fn accepted_runs_well()
    ensures { AcceptedRunsWell }
{}

/// A checked program never traps, on any block, makes at most as many steps as its cost and emits at most as many pairs
/// as it may.
pub fn checked_runs_within()
    ensures { CheckedRunsWithin }
{}
