ghost use Rattle.ddl_slots.specs.Laws.{PicksOffered, PicksVacant, PutOthers, PutThere, ReleaseKeeps, SameEntries};

/// The law of the map: what is put at a number is there, and every other entry is as it was; maps with the same entries are
/// equal. There is nothing to run.
pub fn map_law()
    ensures there { PutThere }
    ensures others { PutOthers }
    ensures same { SameEntries }
{}

/// The law of numbers: a new slot gets one that no live slot has, and any such number that is offered. There is nothing to
/// run.
pub fn number_law()
    ensures vacant { PicksVacant }
    ensures offered { PicksOffered }
{}

/// The law of release: where counts are references, and the references of some words go, the counts are the references that
/// are left. There is nothing to run.
pub fn release_law()
    ensures { ReleaseKeeps }
{}
