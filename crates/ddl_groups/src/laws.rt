ghost use Rattle.ddl_groups.specs.Laws.{LabelsTellGroups, OneGrouping};

/// The law of groups: at most one list of lists is that of the groups. There is nothing to run.
pub fn groups_law()
    ensures { OneGrouping }
{}

/// The law of labels: two declarations have one label exactly where each reaches the other. There is nothing to run.
pub fn labels_law()
    ensures { LabelsTellGroups }
{}
