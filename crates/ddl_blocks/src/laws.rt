ghost use Rattle.ddl_blocks.specs.Failing.{ComesTo};
ghost use Rattle.ddl_blocks.specs.Laws.{EnoughBudget, LargerBudget, MoreNumbers, OneRun, WithinBudget, WithinNumbers};

/// The law of budgets: where a budget is large enough, every larger one gives the same, and where it is not, what it gives
/// stands at the front of what a larger one gives. So a code has at most one run on a stream. A run counts no more than its
/// budget. There is nothing to run.
pub fn budget_law()
    ensures enough { EnoughBudget }
    ensures larger { LargerBudget }
    ensures one { OneRun }
    ensures within { WithinBudget }
{}

/// The same of runs on slots, whose budget is how many numbers they are offered. There is nothing to run.
pub fn numbers_law()
    ensures more { MoreNumbers }
    ensures within { WithinNumbers }
{}

/// The law of operations: after some ticks there is one parse, a failure where the operation may fail, or a fault that it may
/// have, at its span; or the operation has no meaning there. There is nothing to run.
pub fn operations_law()
    ensures { ComesTo }
{}
