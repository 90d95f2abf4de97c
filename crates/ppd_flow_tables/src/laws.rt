ghost use Rattle.ppd_flow_tables.specs.LatestEdges.{LatestIsGreatest};

/// Law: of a past the greatest edge before another one that writes a cell is the greatest of the last ones of each
/// process: since what is before an edge is before the later ones of its process, a process's last one serves for all
/// its edges.
pub fn latest_is_greatest()
    ensures { LatestIsGreatest }
{}
