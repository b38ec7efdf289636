//! What holds of the definitions alone.

ghost use Rattle.ddl_schemes.specs.Laws.{OneNumbering};

/// The law of numberings: a group has one list of variables. There is nothing to run.
pub fn numbering_law()
    ensures { OneNumbering }
{}
