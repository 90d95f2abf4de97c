ghost use Rattle.law_rules.specs.Bytes.{RecordingsAreSpelledSo};
ghost use Rattle.law_rules.specs.Missing.{MissingFollowsTheRules};
ghost use Rattle.law_rules.specs.Near.{NearIntervalsFollowTheRules};
ghost use Rattle.law_rules.specs.Needs.{NeedsFollowTheRules};
ghost use Rattle.law_rules.specs.Replays.{ReplaysFollowTheRules, TurnsFollowTheRules};

/// Law: what the next step of a process needs is what one of the rules says.
pub fn needs_follow_the_rules()
    ensures { NeedsFollowTheRules }
{}

/// Law: a turn of a replay is what one of the rules says, and a replay what turns by the rules come to.
pub fn replays_follow_the_rules()
    ensures turns { TurnsFollowTheRules }
    ensures replays { ReplaysFollowTheRules }
{}

/// Law: an interval is near to an item exactly where one of the rules says so.
pub fn near_intervals_follow_the_rules()
    ensures { NearIntervalsFollowTheRules }
{}

/// Law: a recording has these bytes, field after field.
pub fn recordings_are_spelled_so()
    ensures { RecordingsAreSpelledSo }
{}

/// Law: of the synchronizations of logs is missing what one of the rules says.
pub fn missing_follows_the_rules()
    ensures { MissingFollowsTheRules }
{}
