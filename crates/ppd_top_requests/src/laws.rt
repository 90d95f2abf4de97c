ghost use Rattle.ppd_top_requests.specs.Laws.{FlowTestsNumbersLast, ShowTestsNumbersLast, TestsMayComeLast};

/// Law: a test of each value as it comes gives what a test of all values at the end gives, for any test, any
/// options, any names and any words.
pub fn tests_may_come_last()
    ensures { TestsMayComeLast }
{}

/// Law: reading the words of `flow` by hand, with numbers and their limits tested as they come, gives what
/// `words_give` gives with the same tests at the end, for any limits.
pub fn flow_tests_numbers_last()
    ensures { FlowTestsNumbersLast }
{}

/// Law: the same for `show`, where reading by hand knows a budget and refuses it at the end.
pub fn show_tests_numbers_last()
    ensures { ShowTestsNumbersLast }
{}
