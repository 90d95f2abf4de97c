ghost use Rattle.law_logs.specs.Recording.Constants.{ConstantsHave64Bits};
ghost use Rattle.law_logs.specs.Recording.Lawful.{RunLogsAreLawful};
ghost use Rattle.law_logs.specs.Recording.Values.{ValuesHave64Bits};

/// Law: each constant and each start value of an accepted source's program has 64 bits.
pub fn constants_have_64_bits()
    ensures { ConstantsHave64Bits }
{}

/// Law: after each schedule of a program whose constants and start values have 64 bits, all local cells,
/// answers, shared cells and values sent have, since a result that has more is an overflow.
pub fn values_have_64_bits()
    ensures { ValuesHave64Bits }
{}

/// Law: the logs of a whole run are lawful for its recording: for an accepted source, a valid policy and a budget
/// from 1 to 500,000, the logs of each whole schedule, with the plan of the policy, have a recording. So there are
/// as many lists as processes; numbers of synchronizations are at least 1; completions come only where a channel has
/// capacity 0; cell lists are rising and name shared cells; lists of values have at most 65,535, each of 64 bits;
/// and the recording has at most 268,435,456 bytes.
pub fn run_logs_are_lawful()
    ensures { RunLogsAreLawful }
{}
