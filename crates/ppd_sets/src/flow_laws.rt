ghost use Rattle.ppd_sets.specs.FlowLaws.{PathsAreChains, FollowsItsList};

// Laws of what the other calls give: each is the contract of a function that does nothing.

/// A flow path leads from one statement to another just where the successors of the one lead there.
pub fn flow_paths_are_chains()
    ensures { PathsAreChains }
{}

/// In a valid program what follows a statement is what stands behind it in its list, or what
/// follows that list.
#[tactic(auto, using(crate::proofs::Following::follows_its_list))]
pub fn follows_its_list()
    ensures { FollowsItsList }
{}
