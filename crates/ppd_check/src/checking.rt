// The table of a tree, or the first rule that its source breaks.
ghost use Rattle.std.specs.Prelude.{◌≡◌, ◌<◌, ◌≤◌, ◌*◌, true, false, [], ◌∷◌, ◌++◌, length, None, Some, IfOk, OnOk, map, nat_lt, ◌+◌, not};
ghost use Rattle.ppd_check.specs.Answer.{IsCheckOf};
ghost use Rattle.std.specs.List.{All};
ghost use Rattle.ppd_parse.specs.Grammar.{Shape};
ghost use Rattle.ppd_parse.specs.Tree.{tree_of, IsTable};
ghost use Rattle.ppd_check.specs.Bodies.{WroteHeads};
ghost use Rattle.ppd_check_names.specs.declared.fault.Cause.TheVariants.{NoProcess};
ghost use Rattle.ppd_check_names.specs.Faults.{first, first_of_both, if_so};
ghost use Rattle.ppd_check_names.specs.Globals.{globals as declared_by, no_globals, items_faults, count_faults};
ghost use Rattle.ppd_check_names.specs.Holding.{head_at, Holds, IsHeadAt};
ghost use Rattle.ppd_check_names.specs.Names.{innermost};
ghost use Rattle.ppd_check.specs.Sources.{vars, core_of, faults_in};
ghost use Rattle.ppd_check_names.specs.Fitted.{fitted};
ghost use Rattle.ppd_check.specs.Refused.{IsTreeRefused};
ghost use Rattle.ppd_check_names.specs.Cost.{heads_nodes, nodes_at, total};
ghost use Rattle.ppd_check_names.specs.Reading.{source_of};

use crate::bodies::{Heads, vars_of, write_heads};
use crate::error::CheckError;
use crate::places::note_statements;
use ppd_ast::{Body, Memory, Program, Seq, Steps, Var};
use ppd_check_names::{
    Cause, Fault, Globals, Output, Scopes, Source, Writer, as_short, globals_of, note_no_process,
};
use ppd_parse::Tree;
use std::alloc::Global;
use std::marker::Brand;
use std::mem::replace;
use std::sync::ledger::{Blank, Ledger};

// The table, and the first broken rule.
#[derive(Drop)]
struct Checked {
    program: Program,
    found: Option<Fault>,
}

// The lists of a table while they grow.
#[derive(Drop)]
struct Lists {
    out: Output,
    bodies: Seq<Body>,
    shared: Seq<Var>,
}

// Why a source is refused, by the first rule that it breaks.
fn error_of(fault: Fault) -> CheckError
    ensures { (tree : Shape) → first (faults_in (source_of tree)) ≡ Some fault → IsTreeRefused tree result }
{
    let place = fault.place;
    match fault.cause {
        Cause::Twice => CheckError::Twice(place),
        Cause::Unknown => CheckError::Unknown(place),
        Cause::WrongKind => CheckError::WrongKind(place),
        Cause::Arity => CheckError::Arity(place),
        Cause::ReturnPlace => CheckError::ReturnPlace(place),
        Cause::VoidValue => CheckError::VoidValue(place),
        Cause::NoProcess => CheckError::NoProcess(place),
        Cause::TooMany(limit) => CheckError::TooMany(place, limit),
        Cause::BadSize => CheckError::BadSize(place),
    }
}

// The functions, then the processes.
fn write_all<L: Ledger>(
    source: Source<'_>,
    scopes: Scopes,
    functions: &[u32],
    processes: &[u32],
    out: &mut Output,
    steps: &mut Steps<L>,
) -> Result<Seq<Body>, Memory>
    requires functions { All (IsHeadAt source.nodes.now false) functions.now }
    requires processes { All (IsHeadAt source.nodes.now true) processes.now }
    requires one { scopes ≡ innermost scopes ∷ [] }
    ensures wrote { IfOk result (λ bodies. WroteHeads (innermost scopes) (map (head_at source.entry.nodes.now)
        functions.now ++ map (head_at source.entry.nodes.now) processes.now) out.old.table out.new.table [] bodies) }
    ensures cost { steps.new
        ≤ steps.old + 113 * total (nodes_at source.entry.nodes.now) functions.now + 113 * total
        (nodes_at source.entry.nodes.now) processes.now }
{
    let mut bodies = Seq::new(scopes.alloc());
    let heads = Heads {
        source,
        process: false,
    };
    let scopes = write_heads(heads, functions, scopes, out, &mut bodies, steps)?;
    let heads = Heads {
        source,
        process: true,
    };
    write_heads(heads, processes, scopes, out, &mut bodies, steps)?;
    Ok(bodies)
}

// The shared variables, and the functions and processes. The scopes are used up.
fn write_lists<L: Ledger>(
    alloc: Global,
    source: Source<'_>,
    globals: &mut Globals,
    lists: &mut Lists,
    steps: &mut Steps<L>,
) -> Result<(), Memory>
    requires functions { All (IsHeadAt source.nodes.now false) globals.old.functions }
    requires processes { All (IsHeadAt source.nodes.now true) globals.old.processes }
    requires one { globals.old.scopes ≡ innermost globals.old.scopes ∷ [] }
    ensures shared { OnOk result (lists.new.shared ≡ vars 0 globals.old.shared) }
    ensures wrote { OnOk result (WroteHeads (innermost globals.old.scopes) (map (head_at source.entry.nodes.now)
        globals.old.functions ++ map (head_at source.entry.nodes.now) globals.old.processes) lists.old.out.table
        lists.new.out.table [] lists.new.bodies) }
    ensures rest { globals.new ≡ record globals.old { scopes = globals.new.scopes } }
    ensures cost { steps.new
        ≤ steps.old + 3 * length globals.old.shared + 113 * total (nodes_at source.entry.nodes.now)
        globals.old.functions + 113 * total (nodes_at source.entry.nodes.now) globals.old.processes }
{
    lists.shared = vars_of(alloc, globals.shared.as_slice(), steps)?;
    let scopes = replace(&mut globals.scopes, Scopes::new(alloc));
    let bodies = write_all(
        source,
        scopes,
        globals.functions.as_slice(),
        globals.processes.as_slice(),
        &mut lists.out,
        steps,
    )?;
    lists.bodies = bodies;
    Ok(())
}

// The table of what a source declares and its lists.
fn checked_of(globals: Globals, lists: Lists) -> Checked
    ensures { result
        ≡ record {
          program = record {
            exprs = lists.out.table.exprs;
            stmts = lists.out.table.stmts;
            bodies = lists.bodies;
            functions = fitted 16 (length globals.functions);
            shared = lists.shared;
            starts = globals.starts;
            sems = globals.sems;
            chans = globals.chans;
          };
          found = lists.out.table.found;
        } }
{
    let functions = as_short(globals.functions.len() as u64);
    let out = lists.out;
    let table = out.table;
    Checked {
        program: Program {
            exprs: table.exprs,
            stmts: table.stmts,
            bodies: lists.bodies,
            functions,
            shared: lists.shared,
            starts: globals.starts,
            sems: globals.sems,
            chans: globals.chans,
        },
        found: table.found,
    }
}

// The lists of a table without rows, with what was found so far.
fn no_lists(alloc: Global, found: Option<Fault>) -> Lists
    ensures { result.out.table ≡ record { exprs = []; stmts = []; found = found } }
{
    let table = Writer {
        exprs: Seq::new(alloc),
        stmts: Seq::new(alloc),
        found,
    };
    let row = Seq::new(alloc);
    Lists {
        out: Output { table, row },
        bodies: Seq::new(alloc),
        shared: Seq::new(alloc),
    }
}

// All lists of a table, and the first rule that its source breaks after those of its declarations, which the lists
// begin with.
fn write_table<L: Ledger>(
    alloc: Global,
    source: Source<'_>,
    globals: &mut Globals,
    lists: &mut Lists,
    steps: &mut Steps<L>,
) -> Result<(), Memory>
    requires holds { Holds source.nodes.now globals.old (declared_by (source_of (tree_of source.nodes.now))) }
    requires begun { let s = source_of (tree_of source.nodes.now) in
        lists.old.out.table ≡ record {
          exprs = [];
          stmts = [];
          found = first_of_both
              (first_of_both None (first (items_faults s.items no_globals ++ count_faults (declared_by s))))
              (first (if_so (not (nat_lt 0 (length (declared_by s).processes))) s.end NoProcess));
        } }
    requires heads { heads_nodes source.nodes.now globals.old ≤ nodes_at source.nodes.now 0 }
    ensures program { OnOk result
        ((faults_in (source_of (tree_of source.entry.nodes.now)) ≡ [])
        → record {
          exprs = lists.new.out.table.exprs;
          stmts = lists.new.out.table.stmts;
          bodies = lists.new.bodies;
          functions = fitted 16 (length globals.new.functions);
          shared = lists.new.shared;
          starts = globals.new.starts;
          sems = globals.new.sems;
          chans = globals.new.chans;
        } ≡ core_of (source_of (tree_of source.entry.nodes.now))) }
    ensures found { OnOk result
        (lists.new.out.table.found ≡ first (faults_in (source_of (tree_of source.entry.nodes.now)))) }
    ensures cost { steps.new ≤ steps.old + 140 * length source.entry.nodes.now + 1 }
{
    write_lists(alloc, source, globals, lists, steps)?;
    let table = &mut lists.out.table;
    note_statements(alloc, table.stmts.as_slice(), &mut table.found, steps)
}

// The table of a tree's nodes, and the first rule that it breaks; where it breaks one, the table says nothing.
fn check_nodes<L: Ledger>(
    alloc: Global,
    source: Source<'_>,
    steps: &mut Steps<L>,
) -> Result<Checked, Memory>
    ensures program { IfOk result
        (λ checked. (faults_in (source_of (tree_of source.entry.nodes.now)) ≡ []) → checked.program ≡ core_of
        (source_of (tree_of source.entry.nodes.now))) }
    ensures found { IfOk result
        (λ checked. checked.found ≡ first (faults_in (source_of (tree_of source.entry.nodes.now)))) }
    ensures cost { steps.new ≤ steps.old + 150 * length source.entry.nodes.now + 2048 }
{
    let mut found = None;
    let mut globals = globals_of(alloc, source, &mut found, steps)?;
    note_no_process(source, &globals, &mut found);
    let mut lists = no_lists(alloc, found);
    let done = write_table(alloc, source, &mut globals, &mut lists, steps);
    done.and(Ok(checked_of(globals, lists)))
}

/// The table of a tree, as `check` answers it, in at most 150 steps for each node of the tree and 2,048 more for the
/// start values of the shared cells. A step is one turn of a loop, one visit of a node, or one element that is put into
/// a list or a map; the look-up of a name and the copy of one are a step each, however long they take, and so is the
/// choice of the first statement past the most. So the bound holds too for the elements that stand in the checker's
/// lists and maps at any time.
pub fn check_in<L: Ledger>(
    alloc: Global,
    tree: &Tree,
    steps: &mut Steps<L>,
) -> Result<Program, CheckError>
    requires table { IsTable tree.now.nodes }
    ensures check { IsCheckOf tree.now.nodes result }
    ensures cost { steps.new ≤ steps.old + 150 * length tree.now.nodes + 2048 }
{
    let source = Source {
        nodes: tree.nodes.as_slice(),
    };
    let checked = check_nodes(alloc, source, steps)?;
    match checked.found {
        None => Ok(checked.program),
        Some(fault) => Err(error_of(fault)),
    }
}

// The table of a tree, with a count of steps that begins at a blank.
fn check_from<L: Ledger>(alloc: Global, tree: &Tree, blank: Blank) -> Result<Program, CheckError>
    requires name { blank.name ≡ L.name }
    requires parts { blank.parts ≡ L.parts }
    requires some { 0 < blank.parts }
    requires table { IsTable tree.now.nodes }
    ensures { IsCheckOf tree.now.nodes result }
{
    let mut steps: Steps<L> = Steps::new(blank);
    check_in(alloc, tree, &mut steps)
}

/// The table of a tree that breaks no rule of the language: shared cells and the cells of a body in the order of their
/// declarations, functions before processes, statements in pre-order. It is a valid program where the tree is that of a
/// source's tokens. It is linear in the tree: its lists have at most nine elements for each node together, beside
/// the start values of the shared cells.
///
/// Otherwise the first broken rule by its place, and at one place the one that `CheckError` lists first; `Memory` is
/// want of memory.
pub fn check(alloc: Global, tree: &Tree) -> Result<Program, CheckError>
    requires table { IsTable tree.now.nodes }
    ensures { IsCheckOf tree.now.nodes result }
{
    check_from::<Brand>(alloc, tree, Blank::new(1))
}
