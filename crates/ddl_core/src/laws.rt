ghost use Rattle.ddl_core.specs.Laws.{EnoughDepth, LargerDepth, OneOutcome, PerformsOnce, ChoosesOnce};

/// The law of depths, which makes one meaning of the meanings at each depth: where a depth is large enough, every larger one
/// gives the same, and where it is not, what it gives stands at the front of what a larger one gives. So a program has at
/// most one outcome on a stream. There is nothing to run.
pub fn depth_law()
    ensures enough { EnoughDepth }
    ensures larger { LargerDepth }
    ensures one { OneOutcome }
{}

/// The law of a choice whose left side is one operation: an operation gives at most one parse, as its last event, and so
/// such a choice goes on at that parse, or after the operation's failures with its right side. There is nothing to run.
pub fn attempt_law()
    ensures operations { PerformsOnce }
    ensures choices { ChoosesOnce }
{}
