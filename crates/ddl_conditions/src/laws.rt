//! What holds of the definitions alone.

ghost use Rattle.ddl_conditions.specs.Laws.{EndHasGiven, MetAreReady, OneEnd};

/// The law of growth: the list of equations of a group grows to one end, whichever most general
/// solutions are kept on the way. There is nothing to run.
pub fn growth_law()
    ensures { OneEnd }
{}

/// What a demand gives at the heads of its subjects is solved at the end of the growth, and the
/// subjects of a demand that holds have heads. There is nothing to run.
pub fn given_law()
    ensures given { EndHasGiven }
    ensures ready { MetAreReady }
{}
