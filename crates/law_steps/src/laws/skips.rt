ghost use Rattle.law_steps.specs.Skips.{SkipsGoPast};

/// Law: in the story of a schedule of a valid program, whole or not, racy or not, with the plan of any policy: `skip`
/// with the values of an interval's postlog takes the process from where the interval begins to where it has ended. It
/// gives the frames and the statements still to do that stand there, of a loop as of a function; what was spent, the
/// count of steps and what was printed are its own.
pub fn skips_go_past()
    ensures { SkipsGoPast }
{}
