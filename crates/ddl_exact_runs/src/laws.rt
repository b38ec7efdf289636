ghost use Rattle.ddl_exact_runs.specs.OneLoading.{OneLoading};
ghost use Rattle.ddl_exact_runs.specs.OneRun.{OneAnswer, OneRun};

/// The law of loading: where it is told what files hold, the loaded modules, each refusal and the cycle exclude each other,
/// and of each a root has at most one. A failed call of the files and want of memory come from outside, and are left out.
/// There is nothing to run.
pub fn load_law()
    ensures { OneLoading }
{}

/// The law of calls: where it is told what files hold, words have one answer, with one status and one list of lines. So two
/// calls with the same words end alike and write the same, but where a call of the files or a write failed, or memory ran
/// out. There is nothing to run.
pub fn run_law()
    ensures answer { OneAnswer }
    ensures run { OneRun }
{}
