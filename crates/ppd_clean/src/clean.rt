use ppd_ast::Seq;
use ppd_model::{FlowEdge, Item};

/// An item with its flowback edges, in order.
#[derive(Drop)]
pub struct Clean {
    pub item: Item,
    pub edges: Seq<FlowEdge>,
}
