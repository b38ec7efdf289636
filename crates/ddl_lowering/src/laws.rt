ghost use Rattle.ddl_lowering.specs.Laws.{LoweringKeeps};

/// The law of lowering: the core of a specialised specification has the same failures and parses in the same order, ends
/// in the same way, and has at most eight ticks for one. There is nothing to run.
pub fn lowering_keeps()
    ensures { LoweringKeeps }
{}
