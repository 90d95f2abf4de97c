// The plan without cells.
ghost use Rattle.std.specs.Prelude.{◌≡◌, ◌<◌, ◌^◌, [], ◌∷◌, ◌++◌, IfOk, OnOk, length, map, if◌then◌else◌};
ghost use Rattle.std.specs.List.{flat_map, enumerate_from};
ghost use Rattle.ppd_ast.specs.Bare.{bare, bare_block, bare_unit, gives_value};
ghost use Rattle.ppd_ast.specs.declared.plan.BlockKind.TheVariants.{Function, Process};
ghost use Rattle.ppd_ast.specs.Numbered.{is_block_loop, is_block_body, loops_at, starts_at, numbers_of, of_body};
ghost use Rattle.ppd_ast.specs.Valid.{IsValid};
ghost use Rattle.ppd_ast.specs.ValidPlan.{IsValidPlan, IsValidPolicy};

use crate::numbered::{is_block_body, is_block_loop};
use ppd_ast::{Block, BlockKind, Body, Memory, Plan, Policy, Program, Seq, Start, Unit};
use ppd_sets::end_of;
use std::alloc::Global;

fn gives_value(bodies: &[Body], kind: BlockKind) -> bool
    ensures { result ≡ gives_value bodies.now kind }
{
    match kind {
        BlockKind::Function(number) => match bodies.get(number as usize) {
            None => false,
            Some(body) => body.value,
        },
        BlockKind::Process(_) | BlockKind::Loop(_) => false,
    }
}

fn add_block(
    blocks: &mut Seq<Block>,
    alloc: Global,
    bodies: &[Body],
    kind: BlockKind,
) -> Result<(), Memory>
    ensures { OnOk result (blocks.new ≡ blocks.old ++ bare_block bodies.now kind ∷ []) }
{
    let value = gives_value(bodies, kind);
    blocks.push(Block {
        kind,
        prelog: Seq::new(alloc),
        postlog: Seq::new(alloc),
        value,
    })
}

fn add_unit(units: &mut Seq<Unit>, alloc: Global, start: Start) -> Result<(), Memory>
    ensures { OnOk result (units.new ≡ units.old ++ bare_unit start ∷ []) }
{
    units.push(Unit {
        start,
        cells: Seq::new(alloc),
    })
}

// What a policy numbers, body by body, without its cells: the blocks, known by their kinds, and the units, known by
// their starts.
trait Bare: Sized + Drop {
    ghost use Rattle.std.specs.Prelude.{ℕ, List};
    ghost use Rattle.ppd_ast.specs.declared.program.Stmt.{Stmt};
    ghost use Rattle.ppd_ast.specs.declared.program.Body.{Body};
    ghost use Rattle.ppd_ast.specs.declared.plan.Policy.{Policy};

    type Key;

    ghost bare: { List Body → Self.Key → Self };

    // What there is at a statement.
    ghost at_stmt: { List Stmt → Policy → ℕ → List Self.Key };

    // What a body itself is.
    ghost own: { List Stmt → Policy → ℕ → Body → List Self.Key };

    // Adds what there is at the statement.
    fn add_stmt(
        list: &mut Seq<Self>,
        alloc: Global,
        program: &Program,
        policy: Policy,
        number: u32,
    ) -> Result<(), Memory>
        requires { number < length program.now.stmts }
        ensures { OnOk result (list.new
            ≡ list.old ++ map (bare program.now.bodies) (at_stmt program.now.stmts policy number)) };

    // Adds what the body itself is.
    fn add_own(
        list: &mut Seq<Self>,
        alloc: Global,
        program: &Program,
        policy: Policy,
        number: u16,
        body: &Body,
    ) -> Result<(), Memory>
        ensures { OnOk result (list.new
            ≡ list.old ++ map (bare program.now.bodies) (own program.now.stmts policy number body.now)) };
}

fn kind_of_body(number: u16, body: &Body) -> BlockKind
    ensures { result ≡ (if body.now.process then BlockKind.Process number else BlockKind.Function number) }
{
    if body.process {
        BlockKind::Process(number)
    } else {
        BlockKind::Function(number)
    }
}

impl Bare for Block {
    type Key = BlockKind;

    ghost bare = { bare_block };

    ghost at_stmt = { loops_at };

    ghost own = { λ stmts policy number body. if is_block_body stmts policy body
        then (if body.process then Process number else Function number) ∷ [] else [] };

    fn add_stmt(
        list: &mut Seq<Block>,
        alloc: Global,
        program: &Program,
        policy: Policy,
        number: u32,
    ) -> Result<(), Memory> {
        let stmts = program.stmts.as_slice();
        if !is_block_loop(stmts, policy, &stmts[number as usize]) {
            return Ok(());
        }
        add_block(
            list,
            alloc,
            program.bodies.as_slice(),
            BlockKind::Loop(number),
        )
    }

    fn add_own(
        list: &mut Seq<Block>,
        alloc: Global,
        program: &Program,
        policy: Policy,
        number: u16,
        body: &Body,
    ) -> Result<(), Memory> {
        if !is_block_body(program.stmts.as_slice(), policy, body) {
            return Ok(());
        }
        let kind = kind_of_body(number, body);
        add_block(list, alloc, program.bodies.as_slice(), kind)
    }
}

impl Bare for Unit {
    ghost use Rattle.ppd_ast.specs.declared.plan.Start.TheVariants.{Entry};

    type Key = Start;

    ghost bare = { λ bodies. bare_unit };

    ghost at_stmt = { starts_at };

    ghost own = { λ stmts policy number body. Entry number ∷ [] };

    fn add_stmt(
        list: &mut Seq<Unit>,
        alloc: Global,
        program: &Program,
        policy: Policy,
        number: u32,
    ) -> Result<(), Memory> {
        let stmts = program.stmts.as_slice();
        let stmt = &stmts[number as usize];
        if stmt.kind.is_left() {
            return add_unit(list, alloc, Start::After(number));
        }
        if !is_block_loop(stmts, policy, stmt) {
            return Ok(());
        }
        add_unit(list, alloc, Start::Enter(number))?;
        add_unit(list, alloc, Start::Exit(number))
    }

    fn add_own(
        list: &mut Seq<Unit>,
        alloc: Global,
        _program: &Program,
        _policy: Policy,
        number: u16,
        _body: &Body,
    ) -> Result<(), Memory> {
        add_unit(list, alloc, Start::Entry(number))
    }
}

// Adds what there is at a body's statements.
fn add_stmts<T: Bare>(
    list: &mut Seq<T>,
    alloc: Global,
    program: &Program,
    policy: Policy,
    body: &Body,
) -> Result<(), Memory>
    ensures { OnOk result (list.new
        ≡ list.old
        ++ map (T.bare program.now.bodies)
        (flat_map (T.at_stmt program.now.stmts policy) (numbers_of program.now.stmts body.now))) }
{
    for number in body.first..end_of(program.stmts.as_slice(), body) {
        T::add_stmt(list, alloc, program, policy, number)?;
    }
    Ok(())
}

// Adds what there is for a body.
fn add_body<T: Bare>(
    list: &mut Seq<T>,
    alloc: Global,
    program: &Program,
    policy: Policy,
    number: u16,
    body: &Body,
) -> Result<(), Memory>
    ensures { OnOk result (list.new
        ≡ list.old
        ++ map (T.bare program.now.bodies)
        (of_body T.own T.at_stmt program.now.stmts policy number body.now)) }
{
    T::add_own(list, alloc, program, policy, number, body)?;
    add_stmts(list, alloc, program, policy, body)
}

fn all_bare<T: Bare>(alloc: Global, program: &Program, policy: Policy) -> Result<Seq<T>, Memory>
    requires { length program.now.bodies < 2 ^ 16 }
    ensures { IfOk result
        (λ list. list
        ≡ map (T.bare program.now.bodies)
        (flat_map (λ e. of_body T.own T.at_stmt program.now.stmts policy e.0 e.1)
        (enumerate_from 0 program.now.bodies))) }
{
    let mut list = Seq::new(alloc);
    let bodies = program.bodies.as_slice();
    for number in 0..bodies.len() {
        add_body(
            &mut list,
            alloc,
            program,
            policy,
            number as u16,
            &bodies[number],
        )?;
    }
    Ok(list)
}

/// The valid plan of the policy in which every list of cells is empty: with it the entries of
/// blocks and units have no values but returned ones. `Memory` is want of memory.
pub fn bare_plan(alloc: Global, program: &Program, policy: &Policy) -> Result<Plan, Memory>
    requires program { IsValid program.now }
    requires policy { IsValidPolicy policy.now }
    ensures bare { IfOk result (λ plan. plan ≡ bare program.now policy.now) }
    ensures valid { IfOk result (λ plan. IsValidPlan program.now plan) }
{
    let blocks = all_bare(alloc, program, *policy)?;
    let units = all_bare(alloc, program, *policy)?;
    Ok(Plan {
        policy: *policy,
        blocks,
        units,
    })
}
