ghost use Rattle.ppd_rerun_guide.specs.Laws.{GuidedSchedulesAgree, GuidedSchedulesEnd, RerunsSayYes, VerdictsAreOne};

/// Law: the guided schedule of any record can be taken, and after it no process can take a step that is no
/// synchronization or its next one in the record. Of a whole schedule without a race the guided schedule of its record
/// is whole and has the same story, so it agrees with it.
pub fn guided_schedules_agree()
    ensures ends { GuidedSchedulesEnd }
    ensures agree { GuidedSchedulesAgree }
{}

/// Law: there is one verdict on logs, and on the logs of a whole schedule without a race of a valid program, under the
/// plan of a policy, it is the yes with the guided schedule.
pub fn reruns_say_yes()
    ensures one { VerdictsAreOne }
    ensures yes { RerunsSayYes }
{}
