// Adding edges to the rows of the statements into which they lead.
ghost use Rattle.std.specs.Prelude.{◌≡◌, ◌<◌, ◌^◌, ◌&&◌, [], ◌∷◌, ◌++◌, map, length, OnOk, IfOk, if◌then◌else◌, true, false};
ghost use Rattle.std.specs.List.{filter};
ghost use Rattle.std.specs.Option.{option_map_or};
ghost use Rattle.ppd_ast.specs.Valid.{IsValid};
ghost use Rattle.ppd_ast.specs.Members.{has, AreBelow};
ghost use Rattle.ppd_sets.specs.WorkList.{is_marked};
ghost use Rattle.ppd_deps.specs.Edges.{comes_to, control_into, data_into, edges_of, locals_from};
ghost use Rattle.ppd_deps.specs.declared.edges.StaticEdge.TheVariants.{Control, ControlEntry, Data};
ghost use Rattle.ppd_deps.specs.Named.{places, shared_reads, shared_writes};
ghost use Rattle.ppd_deps.specs.Rows.{Adds, at_body, is_reader};
ghost use Rattle.ppd_deps.specs.Tables.{AreTables};

use crate::edges::StaticEdge;
use crate::locals::{Local, Writer, arrivals, begins, places};
use crate::tables::Tables;
use crate::vars::{body_at, locals, written_cells};
use ppd_ast::{Cells, Kind, Memory, Program, Seq};
use ppd_sets::vars_in;
use std::alloc::Global;

// Adds the edge to the row, if it is wanted.
fn add_if(row: &mut Seq<StaticEdge>, edge: StaticEdge, is_wanted: bool) -> Result<(), Memory>
    ensures { OnOk result (row.new ≡ row.old ++ (if is_wanted then edge ∷ [] else [])) }
{
    if is_wanted {
        row.push(edge)?;
    }
    Ok(())
}

// Adds the edge from the statement to each that reads the shared variable.
fn add_shared_edge(
    rows: &mut [Seq<StaticEdge>],
    program: &Program,
    tables: &Tables,
    stmt: u32,
    var: u16,
) -> Result<(), Memory>
    requires valid { IsValid program.now }
    requires tables { AreTables program.now tables.now }
    requires long { length rows.old ≡ length program.now.stmts }
    ensures { OnOk result
        (Adds rows.old rows.new
        (λ t. if has (shared_reads program.now t) var then Data stmt true var ∷ [] else [])) }
{
    let edge = StaticEdge::Data {
        from: stmt,
        shared: true,
        var,
    };
    for number in 0..rows.len() {
        let is_wanted = tables.reads_shared(program, number as u32, var);
        add_if(&mut rows[number], edge, is_wanted)?;
    }
    Ok(())
}

// Adds the edges from the statement for these shared variables.
fn add_shared_edges(
    rows: &mut [Seq<StaticEdge>],
    program: &Program,
    tables: &Tables,
    stmt: u32,
    vars: &[u16],
) -> Result<(), Memory>
    requires valid { IsValid program.now }
    requires tables { AreTables program.now tables.now }
    requires long { length rows.old ≡ length program.now.stmts }
    ensures { OnOk result
        (Adds rows.old rows.new (λ t. map (Data stmt true) (filter (has (shared_reads program.now t)) vars.now))) }
{
    for var in vars {
        add_shared_edge(rows, program, tables, stmt, *var)?;
    }
    Ok(())
}

// The shared variables that the statement writes, where its body runs.
fn shared_written(
    alloc: Global,
    program: &Program,
    tables: &Tables,
    stmt: u32,
) -> Result<Cells, Memory>
    requires valid { IsValid program.now }
    requires tables { AreTables program.now tables.now }
    ensures { IfOk result (λ ids. ids ≡ shared_writes program.now stmt) }
{
    let body = body_at(program, stmt) as u32;
    if tables.running.as_slice().contains(&body) {
        let cells = written_cells(program, true, stmt);
        let vars = vars_in(alloc, program.shared.as_slice(), &cells)?;
        return Ok(vars);
    }
    Ok(Cells::new(alloc))
}

// Whether the statement, of the variable's body, may read it and has a mark.
fn is_wanted(program: &Program, tables: &Tables, local: Local, marks: &[bool], stmt: u32) -> bool
    requires tables { AreTables program.now tables.now }
    requires marks { length marks.now ≡ length program.now.stmts }
    requires there { stmt < length program.now.stmts }
    ensures { result ≡ (is_reader program.now local.body local.var stmt && is_marked marks.now stmt) }
{
    body_at(program, stmt) == local.body
        && tables.reads_local(program, stmt, local.var)
        && marks[stmt as usize]
}

// Adds the edge from the statement to each statement with a mark that reads the local variable.
fn add_local_edge(
    rows: &mut [Seq<StaticEdge>],
    program: &Program,
    tables: &Tables,
    stmt: u32,
    local: Local,
    marks: &[bool],
) -> Result<(), Memory>
    requires valid { IsValid program.now }
    requires tables { AreTables program.now tables.now }
    requires long { length rows.old ≡ length program.now.stmts }
    requires marks { length marks.now ≡ length program.now.stmts }
    ensures { OnOk result (Adds rows.old rows.new (λ t.
        if is_reader program.now local.body local.var t && is_marked marks.now t
        then Data stmt false local.var ∷ [] else [])) }
{
    let edge = StaticEdge::Data {
        from: stmt,
        shared: false,
        var: local.var,
    };
    for number in 0..rows.len() {
        let is_wanted = is_wanted(program, tables, local, marks, number as u32);
        add_if(&mut rows[number], edge, is_wanted)?;
    }
    Ok(())
}

// Adds the edges for what the statement writes to the local variable.
fn add_local_edges(
    rows: &mut [Seq<StaticEdge>],
    alloc: Global,
    program: &Program,
    tables: &Tables,
    writer: &Writer,
    local: Local,
) -> Result<(), Memory>
    requires valid { IsValid program.now }
    requires tables { AreTables program.now tables.now }
    requires long { length rows.old ≡ length program.now.stmts }
    requires places { writer.now.places ≡ places program.now local.body writer.now.stmt }
    requires there { AreBelow (length program.now.stmts) writer.now.places }
    ensures { OnOk result (Adds rows.old rows.new (λ t.
        if is_reader program.now local.body local.var t && comes_to program.now local.body writer.now.stmt local.var t
        then Data writer.now.stmt false local.var ∷ [] else [])) }
{
    let starts = begins(alloc, program, tables, local, writer)?;
    if starts.len() == 0 {
        return Ok(());
    }
    let marks = arrivals(alloc, program, tables, local, starts.as_slice())?;
    add_local_edge(rows, program, tables, writer.stmt, local, marks.as_slice())
}

// Adds the edges for what the statement writes to the local variables of the body.
fn add_locals(
    rows: &mut [Seq<StaticEdge>],
    alloc: Global,
    program: &Program,
    tables: &Tables,
    stmt: u32,
    body: u16,
) -> Result<(), Memory>
    requires valid { IsValid program.now }
    requires tables { AreTables program.now tables.now }
    requires long { length rows.old ≡ length program.now.stmts }
    requires there { stmt < length program.now.stmts }
    ensures { OnOk result
        (Adds rows.old rows.new
        (λ t. at_body program.now body t (map (Data stmt false) (locals_from program.now stmt t)))) }
{
    let places = places(alloc, program, stmt, body)?;
    let writer = Writer { stmt, places };
    for var in 0..locals(program, body).len().min(65_536) {
        let local = Local {
            body,
            var: var as u16,
        };
        add_local_edges(rows, alloc, program, tables, &writer, local)?;
    }
    Ok(())
}

// Adds the edges for what the statement writes to the local variables of any body.
fn add_locals_of_all(
    rows: &mut [Seq<StaticEdge>],
    alloc: Global,
    program: &Program,
    tables: &Tables,
    stmt: u32,
) -> Result<(), Memory>
    requires valid { IsValid program.now }
    requires tables { AreTables program.now tables.now }
    requires long { length rows.old ≡ length program.now.stmts }
    requires there { stmt < length program.now.stmts }
    ensures { OnOk result (Adds rows.old rows.new (λ t. map (Data stmt false) (locals_from program.now stmt t))) }
{
    for body in 0..program.bodies.len() {
        add_locals(rows, alloc, program, tables, stmt, body as u16)?;
    }
    Ok(())
}

// Adds the edges for what the statement writes to local variables: a `return` writes those of its
// callers, a call those of the function, and another statement those of its own body.
fn add_locals_from(
    rows: &mut [Seq<StaticEdge>],
    alloc: Global,
    program: &Program,
    tables: &Tables,
    stmt: u32,
) -> Result<(), Memory>
    requires valid { IsValid program.now }
    requires tables { AreTables program.now tables.now }
    requires long { length rows.old ≡ length program.now.stmts }
    requires there { stmt < length program.now.stmts }
    ensures { OnOk result (Adds rows.old rows.new (λ t. map (Data stmt false) (locals_from program.now stmt t))) }
{
    let found = &program.stmts.as_slice()[stmt as usize];
    match &found.kind {
        Kind::Return(_) => add_locals_of_all(rows, alloc, program, tables, stmt),
        Kind::Call { function, .. } => add_locals(rows, alloc, program, tables, stmt, *function),
        _ => add_locals(rows, alloc, program, tables, stmt, found.body),
    }
}

// Adds the data edges.
fn add_data(
    rows: &mut [Seq<StaticEdge>],
    alloc: Global,
    program: &Program,
    tables: &Tables,
) -> Result<(), Memory>
    requires valid { IsValid program.now }
    requires tables { AreTables program.now tables.now }
    requires long { length rows.old ≡ length program.now.stmts }
    ensures { OnOk result (Adds rows.old rows.new (data_into program.now)) }
{
    for number in 0..rows.len() {
        let stmt = number as u32;
        let vars = shared_written(alloc, program, tables, stmt)?;
        add_shared_edges(rows, program, tables, stmt, vars.as_slice())?;
        add_locals_from(rows, alloc, program, tables, stmt)?;
    }
    Ok(())
}

// The edge from the statement round this one, or from the entry.
fn outer_edge(parent: Option<u32>) -> StaticEdge
    ensures { result ≡ option_map_or Control parent ControlEntry }
{
    match parent {
        None => StaticEdge::ControlEntry,
        Some(outer) => StaticEdge::Control(outer),
    }
}

// Adds the control edges into a statement to its row.
fn add_control_at(row: &mut Seq<StaticEdge>, program: &Program, stmt: u32) -> Result<(), Memory>
    requires { stmt < length program.now.stmts }
    ensures { OnOk result (row.new ≡ row.old ++ control_into program.now stmt) }
{
    let found = &program.stmts.as_slice()[stmt as usize];
    row.push(outer_edge(found.parent))?;
    if found.kind.is_while() {
        row.push(StaticEdge::Control(stmt))?;
        return Ok(());
    }
    Ok(())
}

// Adds the control edges.
fn add_control(rows: &mut [Seq<StaticEdge>], program: &Program) -> Result<(), Memory>
    requires long { length rows.old ≡ length program.now.stmts }
    requires count { length program.now.stmts < 2 ^ 32 }
    ensures { OnOk result (Adds rows.old rows.new (control_into program.now)) }
{
    for stmt in 0..rows.len() {
        add_control_at(&mut rows[stmt], program, stmt as u32)?;
    }
    Ok(())
}

// Adds all edges.
pub(crate) fn fill(
    rows: &mut [Seq<StaticEdge>],
    alloc: Global,
    program: &Program,
    tables: &Tables,
) -> Result<(), Memory>
    requires valid { IsValid program.now }
    requires tables { AreTables program.now tables.now }
    requires long { length rows.old ≡ length program.now.stmts }
    ensures { OnOk result (Adds rows.old rows.new (edges_of program.now)) }
{
    add_data(rows, alloc, program, tables)?;
    add_control(rows, program)?;
    Ok(())
}
