ghost use Rattle.ppd_graph.specs.Cycles.{RoundsAreCycles, TrailsGiveRounds};
ghost use Rattle.ppd_graph.specs.Graphs.{TimesOrderEdges};
ghost use Rattle.ppd_graph.specs.Partners.{NoneTwiceMeansOnce, PartnersAreFound};

/// Law: where no number stands twice, each synchronization stands once; and then the partners found by numbers
/// are those that lead to each.
pub fn partners_are_found()
    ensures found { PartnersAreFound }
    ensures once { NoneTwiceMeansOnce }
{}

/// Law: where no process is ready, processes that wait for one another in a round give a cycle of direct steps;
/// and a trail of waiting processes that comes back gives a round.
pub fn rounds_are_cycles()
    ensures cycles { RoundsAreCycles }
    ensures trails { TrailsGiveRounds }
{}

/// Law: where every synchronization has its time, the times order the internal edges as their synchronizations
/// do, and nothing happens before itself.
pub fn times_order_edges()
    ensures { TimesOrderEdges }
{}
