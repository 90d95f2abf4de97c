ghost use Rattle.ppd_codec_runs.specs.Laws.{NoRunIsRefused, RefusedOrAccepted, RunsAreRecalled};

/// Law: no bytes are both accepted and refused.
pub fn refused_or_accepted()
    ensures { RefusedOrAccepted }
{}

/// Law: the recording of a whole run is never refused, and what is known of it is what is known of the run; where the
/// run has no race, it is what is known of each schedule that agrees with it.
pub fn recalled_runs()
    ensures known { RunsAreRecalled }
    ensures accepted { NoRunIsRefused }
{}
