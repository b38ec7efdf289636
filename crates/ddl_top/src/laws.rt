//! The law of calls.

ghost use Rattle.ddl_top.specs.Table.{AllEnd};

/// Each call that the contract of `run` allows stands in the table of calls: it ends with the status of a row, for the
/// reason that the row says. There is nothing to run.
pub fn table_law()
    ensures { AllEnd }
{}
