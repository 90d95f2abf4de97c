// The static edges into a statement as a text.
ghost use Rattle.std.specs.Prelude.{◌≡◌, ◌<◌, ◌++◌, OnOk, if◌then◌else◌, length};
ghost use Rattle.std.specs.List.{flat_map};
ghost use Rattle.ppd_ast.specs.Valid.{IsValid};
ghost use Rattle.ppd_ast.specs.Lookups.{body_of, body_numbered};
ghost use Rattle.ppd_deps.specs.Edges.{edges_of};
ghost use Rattle.ppd_deps.specs.Tables.{IsDepGraph};
ghost use Rattle.ppd_sets.specs.SetsOf.{AreSetsOf};
ghost use Rattle.ppd_session.specs.Texts.{deps_text, edge_line};

use ppd_ast::{Memory, Program, Var};
use ppd_deps::{DepGraph, StaticEdge, static_graph};
use ppd_sets::{VarSets, sets};
use ppd_text::{put, put_number, put_stmt_at, var_name};
use std::alloc::Global;

// The local variables of the body in which a statement stands.
fn locals_round(program: &Program, stmt: u32) -> &[Var]
    ensures { result.now ≡ (body_numbered program.now (body_of program.now stmt)).locals }
{
    let body = match program.stmts.get(stmt as usize) {
        Some(stmt) => stmt.body,
        None => 0,
    };
    match program.bodies.get(body as usize) {
        Some(body) => body.locals.as_slice(),
        None => &[],
    }
}

fn variables_at(program: &Program, stmt: u32, shared: bool) -> &[Var]
    ensures { result.now
        ≡ (if shared then program.now.shared else (body_numbered program.now (body_of program.now stmt)).locals) }
{
    if shared {
        return program.shared.as_slice();
    }
    locals_round(program, stmt)
}

// Appends an edge into a statement.
fn put_edge(
    text: &mut Vec<u8>,
    program: &Program,
    stmt: u32,
    edge: StaticEdge,
) -> Result<(), Memory>
    ensures { OnOk result (text.new.items ≡ text.old.items ++ edge_line program.now stmt edge) }
{
    match edge {
        StaticEdge::Data { from, shared, var } => {
            put(text, b"data ")?;
            put_number(text, from)?;
            put(text, b" ")?;
            put(text, var_name(variables_at(program, stmt, shared), var))?;
            put(text, b"\n")
        }
        StaticEdge::ControlEntry => put(text, b"control entry\n"),
        StaticEdge::Control(from) => {
            put(text, b"control ")?;
            put_number(text, from)?;
            put(text, b"\n")
        }
    }
}

fn put_edges(
    text: &mut Vec<u8>,
    program: &Program,
    stmt: u32,
    edges: &[StaticEdge],
) -> Result<(), Memory>
    ensures { OnOk result (text.new.items ≡ text.old.items ++ flat_map (edge_line program.now stmt) edges.now) }
{
    for edge in edges {
        put_edge(text, program, stmt, *edge)?;
    }
    Ok(())
}

// The static edges into a statement that is there.
fn put_edges_into(
    text: &mut Vec<u8>,
    program: &Program,
    graph: &DepGraph,
    stmt: u32,
) -> Result<(), Memory>
    requires graph { IsDepGraph program.now graph.now }
    requires there { stmt < length program.now.stmts }
    ensures { OnOk result
        (text.new.items ≡ text.old.items ++ flat_map (edge_line program.now stmt) (edges_of program.now stmt)) }
{
    put_edges(text, program, stmt, graph.edges_into(stmt))
}

// The line of a statement that is there, then the static edges into it.
fn put_stmt_edges(
    text: &mut Vec<u8>,
    program: &Program,
    graph: &DepGraph,
    stmt: u32,
) -> Result<(), Memory>
    requires graph { IsDepGraph program.now graph.now }
    requires there { stmt < length program.now.stmts }
    ensures { OnOk result (text.new.items ≡ text.old.items ++ deps_text program.now stmt) }
{
    put_stmt_at(text, program, stmt)?;
    put_edges_into(text, program, graph, stmt)
}

// The same by the sets of the program's variables.
fn put_deps_by(
    alloc: Global,
    text: &mut Vec<u8>,
    program: &Program,
    sets: &VarSets,
    stmt: u32,
) -> Result<(), Memory>
    requires valid { IsValid program.now }
    requires sets { AreSetsOf program.now sets.now }
    requires there { stmt < length program.now.stmts }
    ensures { OnOk result (text.new.items ≡ text.old.items ++ deps_text program.now stmt) }
{
    let graph = static_graph(alloc, program, sets)?;
    put_stmt_edges(text, program, &graph, stmt)
}

/// Appends a statement's line, then the static edges into it.
pub(crate) fn put_deps(
    alloc: Global,
    text: &mut Vec<u8>,
    program: &Program,
    stmt: u32,
) -> Result<(), Memory>
    requires valid { IsValid program.now }
    requires there { stmt < length program.now.stmts }
    ensures { OnOk result (text.new.items ≡ text.old.items ++ deps_text program.now stmt) }
{
    let sets = sets(alloc, program)?;
    put_deps_by(alloc, text, program, &sets, stmt)
}
