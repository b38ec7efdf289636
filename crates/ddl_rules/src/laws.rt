//! What holds of steps of elaboration one after another.

ghost use Rattle.ddl_rules.specs.Laws.{GuardsStandAround};

/// What `is` asks of a tag stands before what its subject asks, and any equation behind it. There
/// is nothing to run.
pub fn guard_law()
    ensures { GuardsStandAround }
{}
