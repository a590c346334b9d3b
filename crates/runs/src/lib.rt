// Calls at the junction, worked out by the definitions that the contracts cite: some on the book alone, and the run of a train.
#![tactic(auto)]

ghost use Rattle.runs.specs.Calls.{CallsHold};
ghost use Rattle.runs.specs.Run.{TrainRuns};

// How many worked cases of calls there are; all of them hold.
pub fn calls_hold() -> usize
    ensures { CallsHold result }
{
    2
}

// How many calls a train takes that runs a route of the junction, from its reserve to its free; they are a history.
pub fn train_runs() -> usize
    ensures { TrainRuns result }
{
    13
}
