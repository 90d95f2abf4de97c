ghost use Rattle.law_steps.specs.Agreeing.{AgreeingSchedulesHaveNoRace, AgreeingSchedulesHaveOneHistory, AgreeingSchedulesHaveOneStory};

/// Law: of two schedules that agree, where the first has no race, each process takes the same steps with the same
/// answers, writers and numbers, and each shared cell ends with the same value and writer. So all that is found in
/// the one is found in the other, of the logs but for the values of units, and the second has no race either.
pub fn agreeing_schedules()
    ensures stories { AgreeingSchedulesHaveOneStory }
    ensures histories { AgreeingSchedulesHaveOneHistory }
    ensures races { AgreeingSchedulesHaveNoRace }
{}
