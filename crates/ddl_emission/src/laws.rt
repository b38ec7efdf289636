ghost use Rattle.ddl_emission.specs.Laws.{CodeKeeps};

/// The law of emission: the code of a program in the core language, in the plain reading, has the same failures and
/// parses in the same order, ends in the same way, and counts at most eight steps for a tick. There is nothing to run.
pub fn emission_keeps()
    ensures { CodeKeeps }
{}
