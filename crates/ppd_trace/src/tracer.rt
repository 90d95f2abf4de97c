use ppd_activations::Run;
use ppd_ast::Seq;
use ppd_model::{EventId, TracedEvent};
use ppd_sem::{Proc, Stack};

/// A process with its bodies' runs, the running one at the top, the writers of the head statement's
/// answers, and the events so far.
#[derive(Drop)]
pub(crate) struct Tracer {
    pub(crate) proc: Proc,
    pub(crate) runs: Stack<Run>,
    pub(crate) answers: Seq<Option<EventId>>,
    pub(crate) events: Seq<TracedEvent>,
}
