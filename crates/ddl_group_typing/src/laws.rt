ghost use Rattle.ddl_group_typing.specs.Laws.{GroupsAreWellTyped, GroupsAreWellTypedAtAll, InstancesAreWellTyped};
ghost use Rattle.ddl_group_typing.specs.Laws.{OneGroup, OneTyping, OwnCallsAreAtVariables, OwnInstancesAreWellTyped};
ghost use Rattle.ddl_group_typing.specs.Laws.{TablesClose, TreesAreOfGroup};

/// A group has one typing, and a specification has one. There is nothing to run.
pub fn typing_law()
    ensures group { OneGroup }
    ensures whole { OneTyping }
{}

/// Bodies that are well typed are so with their variables replaced. There is nothing to run.
pub fn instances_law()
    ensures instances { InstancesAreWellTyped }
    ensures own { OwnInstancesAreWellTyped }
{}

/// A typed group is well typed, and its trees in the table are those that are. There is nothing to
/// run.
pub fn well_typed_law()
    ensures own { GroupsAreWellTyped }
    ensures all { GroupsAreWellTypedAtAll }
    ensures trees { TreesAreOfGroup }
    ensures calls { OwnCallsAreAtVariables }
    ensures closes { TablesClose }
{}
