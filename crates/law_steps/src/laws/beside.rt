ghost use Rattle.law_steps.specs.Beside.Laws.{StepsCountBlocks};

/// Law: each step of a process that runs opens and closes as many blocks as its need says. What is
/// open is told by what is still to do: the loops that are entered, and the ends of bodies that are
/// blocks.
pub fn steps_count_blocks()
    ensures { StepsCountBlocks }
{}
