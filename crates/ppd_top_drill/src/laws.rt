ghost use Rattle.ppd_top_drill.specs.Drilled.{AreRead};

/// Law: each number that a drill may have makes a source of the language, so the bytes of its source have a program.
pub fn drills_are_read()
    ensures { AreRead }
{}
