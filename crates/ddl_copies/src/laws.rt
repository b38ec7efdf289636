ghost use Rattle.ddl_copies.specs.Keeping.{CopiesAreMono, SpecialisedKeeps, SpecialisedMeans};

/// The law of specialisation: a specialised specification that holds the least set of copies which an entry needs keeps
/// what the entry means, with factor 1, whatever numbers the copies have. So what specialisation makes keeps it. There is
/// nothing to run.
pub fn specialised_keeps()
    ensures copies { SpecialisedKeeps }
    ensures made { SpecialisedMeans }
{}

/// What specialisation makes is a specialised specification: no grammar, class or type is a parameter, and each call gives
/// what is called its parameters. There is nothing to run.
pub fn copied_is_mono()
    ensures { CopiesAreMono }
{}
