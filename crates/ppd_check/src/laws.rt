ghost use Rattle.ppd_check.specs.Read.{HaveOneProgram, AreReadOrRefused};

/// Law: bytes have one program at most, and bytes that have one are refused for want of memory alone.
pub fn one_answer()
    ensures program { HaveOneProgram }
    ensures refused { AreReadOrRefused }
{}
