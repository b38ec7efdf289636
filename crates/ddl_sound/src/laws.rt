ghost use Rattle.ddl_sound.specs.Laws.{NeverStuck, FormsAreSound, ValuesAreSound, SoundOn, SoundBack, SoundCut};
ghost use Rattle.ddl_sound.specs.Laws.{CoreNeverStuck, KeptNeverStuck, TypedAnswers, KeptAnswers};

/// The law of types: of a well typed specification no run ends at a form without meaning, at any depth and on any stream, and
/// each parse is of the type of what is run. So are its forms, each at its type. There is nothing to run.
pub fn never_stuck()
    ensures runs { NeverStuck }
    ensures forms { FormsAreSound }
    ensures values { ValuesAreSound }
{}

/// What one meaning keeps of another: never to be Stuck, and the type of its parses, both ways, and where both are cut.
/// There is nothing to run.
pub fn kept_sound()
    ensures on { SoundOn }
    ensures back { SoundBack }
    ensures cut { SoundCut }
{}

/// What a well typed specification gives to the meanings beside it: a program of the core language that keeps it never ends
/// Stuck, nor does a specification that it keeps, as the one from which it was specialised. There is nothing to run.
pub fn typed_core_never_stuck()
    ensures core { CoreNeverStuck }
    ensures kept { KeptNeverStuck }
{}

/// The law of answers: where a depth is large enough, a well typed specification has an answer on each input, and so has one
/// that it keeps; without a parse the answer is a failure or a fault. There is nothing to run.
pub fn typed_answer()
    ensures typed { TypedAnswers }
    ensures kept { KeptAnswers }
{}
