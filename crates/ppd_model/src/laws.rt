ghost use Rattle.ppd_model.specs.Bounds.{CountsAreBalanced, SchedulesAreBounded, StepsChangeTheirOwn};
ghost use Rattle.ppd_model.specs.Costs.{LogsArePaid, StartsAreFree, StepsCostWhatTheyWrite};
ghost use Rattle.ppd_model.specs.Earlier.{TracesNameEarlierEvents, TracesTellRuns};
ghost use Rattle.ppd_model.specs.Ends.{StoriesTellEnds};
ghost use Rattle.ppd_model.specs.Extents.{ExtentsMatch, IntervalsAreOfLogs};
ghost use Rattle.ppd_model.specs.Forward.{EdgesGoForward, RecordsAreClosed};
ghost use Rattle.ppd_model.specs.Items.{ItemsAreWhole};
ghost use Rattle.ppd_model.specs.Laws.{IsTestOfBefore, IsTestOfEdges, LastEdgesAreOpen, LogsGrow, NoRaceMeansOrder, ProcessesFollowTheirSteps, StoriesAreOfRuns, StoriesGrow, StoriesTellAll, SynchronizationsAreCounted, TagsAreLastWrites};
ghost use Rattle.ppd_model.specs.LocalTags.{LocalTagsAreLastWrites, ReadsAreOfTheTop, SchedulesTagLastWrites, StepsTagTheirWrites, StoriesTellOwnSteps};
ghost use Rattle.ppd_model.specs.Parents.{LoopRunsStayInside, OutersAreTested, ParentsAreLatestTests, ValidParents};
ghost use Rattle.ppd_model.specs.Prefixes.{ObjectsStay, SchedulesGoByPrefixes};
ghost use Rattle.ppd_model.specs.RecordedSets.{AccessesAreOfCells, CellsAreOfAccesses, LogsRecordAccesses, LogsRecordSynchronizations};
ghost use Rattle.ppd_model.specs.Rendezvous.{ChannelsAreInTurn, CompletionsAreLedTo, CompletionsAreReceived, CompletionsLead, CompletionsWereOffered, OffersAreCompleted};
ghost use Rattle.ppd_model.specs.SharedReads.{ConflictsGoForward, LastWritesAreGreatest, SharedReadsAreFound, StepsAreAccesses, WritesAreSteps};
ghost use Rattle.ppd_model.specs.Written.{IntervalsAreOfSteps};

/// Law: the story of a schedule with one more step is that of the schedule with this step, its
/// writer and its cell; and the world of which a story is told is the one that the schedule
/// comes to.
pub fn stories_grow()
    ensures grow { StoriesGrow }
    ensures of_runs { StoriesAreOfRuns }
{}

/// Law: each process comes to the state that its own steps lead to, and its trace, its intervals and
/// its log go by that state.
pub fn processes_follow_their_steps()
    ensures { ProcessesFollowTheirSteps }
{}

/// Law: a step adds its entries to the log of its process, and changes no other log.
pub fn logs_grow()
    ensures { LogsGrow }
{}

/// Law: two schedules with one story have the same trace, record, accesses, races, intervals,
/// items, edges, last values and ends, and the same logs but for the values of units.
pub fn stories_tell_all()
    ensures { StoriesTellAll }
{}

/// Law: the tests of happened-before, on synchronizations and on edges, answer the relations, and
/// a process's last edge is before no edge, since no synchronization ends it.
pub fn happened_before_is_tested()
    ensures on_nodes { IsTestOfBefore }
    ensures on_edges { IsTestOfEdges }
    ensures last_edges { LastEdgesAreOpen }
{}

/// Law: the synchronizations of one kind and object are numbered upwards by one, each number once:
/// from 1, but the `V`s of a semaphore from 1 more than its initial value.
pub fn synchronizations_are_counted()
    ensures { SynchronizationsAreCounted }
{}

/// Law: where no race is listed, each two accesses of two processes to one cell, of which one is a
/// write, are ordered.
pub fn no_race_means_order()
    ensures { NoRaceMeansOrder }
{}

/// Law: the tag of a shared cell is the event that last wrote it.
pub fn tags_are_last_writes()
    ensures { TagsAreLastWrites }
{}

/// Law: the tag of a local cell, which its readers have as their writer, is the event that last
/// wrote it in the cell's activation, and none where no event did. An event writes a cell by a
/// write of its own, as a parameter of the call, or by the value that it returns to it.
#[tactic(auto, using(crate::proofs::LocalSteps::tags_its_writes, crate::proofs::LocalTags::own_steps_told, crate::proofs::LocalTags::local_tags, crate::proofs::LocalTags::top_reads))]
pub fn local_tags_are_last_writes()
    ensures steps { StepsTagTheirWrites }
    ensures own { StoriesTellOwnSteps }
    ensures traces { LocalTagsAreLastWrites }
    ensures schedules { SchedulesTagLastWrites }
    ensures reads { ReadsAreOfTheTop }
{}

/// Law: the events of a process in a trace are its finished and trapped statements in order; without
/// writers, parents and pairs they are what its steps did. The parent of an event, and the writer of
/// each local cell that it reads, are events of the same process with smaller numbers.
pub fn traces_are_of_runs()
    ensures run { TracesTellRuns }
    ensures earlier { TracesNameEarlierEvents }
{}

/// Law: the control parent of an event is the previous test of the loop run that goes on, where the
/// statement is a `While` whose latest test in this activation was true; else the latest event, in
/// this activation, of the `If` or `While` in which the statement directly stands; else the event of
/// the call, and none in a process by itself. In a valid program the call, or none, is the parent of
/// statements of a top list alone; the `If` or `While` in which an event's statement directly stands
/// was tested in its activation before; and since a true test of a `While` up to its next one the
/// events of the activation are of statements inside it.
pub fn parents_are_latest_tests()
    ensures parents { ParentsAreLatestTests }
    ensures valid { ValidParents }
    ensures outers { OutersAreTested }
    ensures loops { LoopRunsStayInside }
{}

/// Law: the step of a process changes the process itself and what its need names, and nothing else.
pub fn steps_change_their_own()
    ensures { StepsChangeTheirOwn }
{}

/// Law: a schedule that can be taken has at most budget + 1 numbers of each process.
pub fn schedules_are_bounded()
    ensures { SchedulesAreBounded }
{}

/// Law: a semaphore is taken no more often than it is given, which begins at its initial value;
/// from a channel no more is received than sent, and to it no more is sent than is received and its
/// capacity together.
pub fn counts_are_balanced()
    ensures { CountsAreBalanced }
{}

/// Law: in a valid program, with a valid plan that lists all parameters of its functions' blocks, a step
/// costs 1 and the count of the values in the prelog, unit and postlog entries that it writes. With that
/// cost the budget is not overspent, and the step is counted. The stop for the budget costs nothing, writes
/// no such value and is not counted. The entries written at the start cost nothing, so a process has spent
/// its steps and the values of its other entries.
pub fn steps_cost_what_they_write()
    ensures steps { StepsCostWhatTheyWrite }
    ensures start { StartsAreFree }
    ensures logs { LogsArePaid }
{}

/// Law: how each process ended is found in the story alone.
pub fn ends_are_told()
    ensures { StoriesTellEnds }
{}

/// Law: after each schedule there are as many shared cells, each with its writer, semaphores, channels and
/// processes as the program has, and each channel has its capacity.
pub fn objects_stay()
    ensures { ObjectsStay }
{}

/// Law: a schedule that can be taken goes by its beginnings: each of its steps is of a process that is
/// enabled then, and leads from what is told of the steps before it to what is told with it.
pub fn schedules_go_by_prefixes()
    ensures { SchedulesGoByPrefixes }
{}

/// Law: what happened before goes forward in the schedule: of a beginning of a schedule the record has all
/// that happened before what it has, and a step in an edge that is before another edge comes before each
/// step in that one.
pub fn happened_before_goes_forward()
    ensures records { RecordsAreClosed }
    ensures edges { EdgesGoForward }
{}

/// Law: each access is a step, and each step that accesses a cell is an access. In a schedule without a
/// race, of two steps that conflict the earlier one's edge is before the other's; the writer of a shared
/// read is the last write of its own edge, else the write in the greatest edge before it that writes the
/// cell, else none; and the last write of a cell is in the greatest edge that writes it.
#[tactic(auto, using(crate::proofs::SharedReads::steps_access, crate::proofs::SharedReads::writes_step))]
pub fn shared_reads_are_found()
    ensures steps { StepsAreAccesses }
    ensures writes { WritesAreSteps }
    ensures conflicts { ConflictsGoForward }
    ensures reads { SharedReadsAreFound }
    ensures last { LastWritesAreGreatest }
{}

/// Law: the synchronizations that the logs of a schedule tell are its record. In a valid program the reads
/// and the writes that a synchronization records are the cells of the accesses of the edge that it ends,
/// rising, and those of the only end, the last entry, are the cells of the last edge; each is one of the
/// program's shared cells.
pub fn logs_record_runs()
    ensures synchronizations { LogsRecordSynchronizations }
    ensures accesses { LogsRecordAccesses }
    ensures cells { CellsAreOfAccesses }
    ensures there { AccessesAreOfCells }
{}

/// Law: of a channel completions never exceed receives, receives never exceed sends, and where its capacity
/// is 0 sends never exceed the completions by more than one. A completion leads to the next send alone, and
/// the receive of its number alone leads to it, which is there; both on channels of capacity 0 alone. A
/// process that took an offer completes it by its next step, or stops for its budget; and a completion
/// follows its offer straight, of the same statement.
#[tactic(auto, using(crate::proofs::Rendezvous::completions_lead, crate::proofs::Rendezvous::completions_led_to, crate::proofs::Rendezvous::completions_received, crate::proofs::Rendezvous::offers_completed))]
pub fn completions_follow_offers()
    ensures counts { ChannelsAreInTurn }
    ensures leads { CompletionsLead }
    ensures led { CompletionsAreLedTo }
    ensures received { CompletionsAreReceived }
    ensures offers { OffersAreCompleted }
    ensures completions { CompletionsWereOffered }
{}

/// Law: after each schedule of a valid program every part of an interval is an item of it, and every event
/// of a process is an item of exactly one interval, at the place at which it is referred to: no item is
/// dropped, and no event is referred to as the process itself.
pub fn items_are_whole()
    ensures { ItemsAreWhole }
{}

/// Law: an interval of a log that is left goes from its prelog to the postlog that matches it, with matching
/// prelogs and postlogs between them; the prelog of another has no postlog. After each schedule they are those of
/// each process's own steps.
pub fn extents_match()
    ensures matched { ExtentsMatch }
    ensures steps { IntervalsAreOfLogs }
{}

/// Law: after each schedule the step that opened an interval of a process wrote its prelog, but that of the
/// process itself, which is there before the first step; the step that left it wrote its postlog; and the last
/// entry of an interval that is not left, where there is one, is an end, which a step wrote or which closes the
/// log of a blocked process.
pub fn intervals_are_of_steps()
    ensures { IntervalsAreOfSteps }
{}
