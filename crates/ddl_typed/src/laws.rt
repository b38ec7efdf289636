ghost use Rattle.ddl_typed.specs.Laws.{EnoughDepth, LargerDepth, OneOutcome, FormsSayWhy, EntriesSayWhy};

/// The law of depths, which makes one meaning of the meanings at each depth: where a depth is large enough, every
/// larger one gives the same, and where it is not, what it gives stands at the front of what a larger one gives.
/// So an entry has at most one denoted outcome on an input. There is nothing to run.
pub fn depth_law()
    ensures enough { EnoughDepth }
    ensures larger { LargerDepth }
    ensures one { OneOutcome }
{}

/// The law of answers: what ends without a parse has a failure to tell. There is nothing to run.
pub fn answer_law()
    ensures forms { FormsSayWhy }
    ensures entries { EntriesSayWhy }
{}
