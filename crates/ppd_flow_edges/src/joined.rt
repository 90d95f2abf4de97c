ghost use Rattle.std.specs.Prelude.{◌≡◌, ◌∷◌, ◌++◌, [], OnOk, option_to_list};
ghost use Rattle.ppd_flow_edges.specs.Joined.{left_at};
ghost use Rattle.ppd_graph.specs.Own.{read_from};
ghost use Rattle.ppd_model.specs.FlowbackEdges.{bare_edge};
ghost use Rattle.ppd_model.specs.declared.flow.EdgeKind.TheVariants as edge_kind;

use ppd_ast::{Memory, Seq};
use ppd_model::{EdgeKind, FlowEdge, Origin};
use ppd_sem::{Access, Spot};

/// The edge of a read, from where what is read was written.
fn read_edge(read: &Access, from: Origin) -> FlowEdge
    ensures { result ≡ read_from read.now from }
{
    FlowEdge {
        kind: EdgeKind::Read,
        spot: Some(read.spot),
        value: Some(read.value),
        from,
    }
}

/// The edge from the last write of a local cell that a loop left with this value.
fn left_edge(spot: Spot, value: i64, from: Origin) -> FlowEdge
    ensures { result ≡ left_at spot value from }
{
    FlowEdge {
        kind: EdgeKind::Left,
        spot: Some(spot),
        value: Some(value),
        from,
    }
}

/// The edge from what let an item run.
pub fn control_edge(from: Origin) -> FlowEdge
    ensures { result ≡ bare_edge edge_kind.Control from }
{
    FlowEdge {
        kind: EdgeKind::Control,
        spot: None,
        value: None,
        from,
    }
}

/// Puts the edge of a read behind these. `Memory` is want of memory, here and below.
pub fn push_read(edges: &mut Seq<FlowEdge>, read: &Access, from: Origin) -> Result<(), Memory>
    ensures { OnOk result (edges.new ≡ edges.old ++ read_from read.now from ∷ []) }
{
    edges.push(read_edge(read, from))
}

/// Puts the edge of a local cell that a loop left with this value behind these.
pub fn push_left(
    edges: &mut Seq<FlowEdge>,
    spot: Spot,
    value: i64,
    from: Origin,
) -> Result<(), Memory>
    ensures { OnOk result (edges.new ≡ edges.old ++ left_at spot value from ∷ []) }
{
    edges.push(left_edge(spot, value, from))
}

/// Puts the edge behind these, if there is one.
fn push_if(edges: &mut Seq<FlowEdge>, edge: Option<FlowEdge>) -> Result<(), Memory>
    ensures { OnOk result (edges.new ≡ edges.old ++ option_to_list edge) }
{
    match edge {
        Some(edge) => edges.push(edge),
        None => Ok(()),
    }
}

/// Puts the edge from the pair, if there is one, and that of control behind these.
pub fn push_rest(
    edges: &mut Seq<FlowEdge>,
    pair: Option<FlowEdge>,
    control: FlowEdge,
) -> Result<(), Memory>
    ensures { OnOk result (edges.new ≡ (edges.old ++ option_to_list pair) ++ control ∷ []) }
{
    push_if(edges, pair)?;
    edges.push(control)
}
