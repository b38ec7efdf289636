ghost use Rattle.ddl_stream.specs.Laws.{AgreesLater};

/// The law of agreement: files that agree with an input still do later. There is nothing to run.
pub fn agree_law()
    ensures { AgreesLater }
{}
