// Plans of worked programs, which are valid or not.

ghost use Rattle.ppd_ast.specs.Valid.{IsValid};

use crate::changes::{BUFFER, CALL, RECURSION};
use ppd_ast::{Block, BlockKind, Cells, Memory, Plan, Policy, Program, Seq, Start, Unit};
use ppd_blocks::{bare_plan, partition};
use ppd_check::read_source;
use std::alloc::Global;
use test_valid::{is_same_kind, is_same_start, is_valid_plan, is_valid_program};

const LOOP: &str =
    "shared int x; process a { int i; while (i < 3) { x = x + i; i = i + 1; } print(x); }";

// A block in a line of a plan: its kind, its prelog, its postlog and whether it gives a value.
type Part<'a> = (BlockKind, &'a [u16], &'a [u16], bool);

// A source, the two numbers of a policy, blocks, the starts of units, of which each but the first may read the shared
// scalar, and whether they are a valid plan.
type Planned<'a> = (&'a str, (u16, u16), &'a [Part<'a>], &'a [Start], bool);

const STARTS_OF_A_CALL: [Start; 3] = [Start::Entry(0), Start::Entry(1), Start::After(3)];

// By the second policy the function is no block.
const CALLS: [Planned<'static>; 3] = [
    (
        CALL,
        (2, 0),
        &[
            (BlockKind::Function(0), &[], &[], false),
            (BlockKind::Process(1), &[], &[], false),
        ],
        &STARTS_OF_A_CALL,
        true,
    ),
    (
        CALL,
        (3, 0),
        &[
            (BlockKind::Function(0), &[], &[], false),
            (BlockKind::Process(1), &[], &[], false),
        ],
        &STARTS_OF_A_CALL,
        false,
    ),
    (
        CALL,
        (3, 0),
        &[(BlockKind::Process(1), &[], &[], false)],
        &STARTS_OF_A_CALL,
        true,
    ),
];

const STARTS_OF_A_RECURSION: [Start; 4] = [
    Start::Entry(0),
    Start::After(2),
    Start::Entry(1),
    Start::After(4),
];

// A local that is no parameter, and a value that is forgotten.
const RECURSIONS: [Planned<'static>; 3] = [
    (
        RECURSION,
        (4096, 0),
        &[
            (BlockKind::Function(0), &[0], &[], true),
            (BlockKind::Process(1), &[], &[], false),
        ],
        &STARTS_OF_A_RECURSION,
        true,
    ),
    (
        RECURSION,
        (0, 0),
        &[
            (BlockKind::Function(0), &[1], &[], true),
            (BlockKind::Process(1), &[], &[], false),
        ],
        &STARTS_OF_A_RECURSION,
        false,
    ),
    (
        RECURSION,
        (0, 0),
        &[
            (BlockKind::Function(0), &[], &[], false),
            (BlockKind::Process(1), &[], &[], false),
        ],
        &STARTS_OF_A_RECURSION,
        false,
    ),
];

const OUTER: Part<'static> = (BlockKind::Process(0), &[], &[], false);

const INNER: Part<'static> = (BlockKind::Loop(1), &[0], &[0], false);

const STARTS_OF_A_LOOP: [Start; 3] = [Start::Entry(0), Start::Enter(1), Start::Exit(1)];

// Two statements are inside. A number of the policy past its limit; a unit too few; blocks in another order; cells that
// do not rise, a cell that is not there, and a value that a loop gives.
const LOOPS: [Planned<'static>; 9] = [
    (LOOP, (0, 2), &[OUTER, INNER], &STARTS_OF_A_LOOP, true),
    (LOOP, (0, 3), &[OUTER], &[Start::Entry(0)], true),
    (LOOP, (0, 0), &[OUTER], &[Start::Entry(0)], true),
    (LOOP, (4097, 1), &[OUTER, INNER], &STARTS_OF_A_LOOP, false),
    (
        LOOP,
        (0, 1),
        &[OUTER, INNER],
        &[Start::Entry(0), Start::Enter(1)],
        false,
    ),
    (LOOP, (0, 1), &[INNER, OUTER], &STARTS_OF_A_LOOP, false),
    (
        LOOP,
        (0, 1),
        &[OUTER, (BlockKind::Loop(1), &[0, 0], &[0], false)],
        &STARTS_OF_A_LOOP,
        false,
    ),
    (
        LOOP,
        (0, 1),
        &[OUTER, (BlockKind::Loop(1), &[1], &[0], false)],
        &STARTS_OF_A_LOOP,
        false,
    ),
    (
        LOOP,
        (0, 1),
        &[OUTER, (BlockKind::Loop(1), &[], &[0], true)],
        &STARTS_OF_A_LOOP,
        false,
    ),
];

fn cells(alloc: Global, items: &[u16]) -> Result<Cells, Memory> {
    Ok(Seq::from_vec(Vec::from_slice(alloc, items)?))
}

fn block_of(alloc: Global, (kind, before, after, value): Part) -> Result<Block, Memory> {
    let prelog = cells(alloc, before)?;
    let postlog = cells(alloc, after)?;
    Ok(Block {
        kind,
        prelog,
        postlog,
        value,
    })
}

fn add_blocks(alloc: Global, plan: &mut Plan, parts: &[Part]) -> Result<(), Memory> {
    for part in parts {
        plan.blocks.push(block_of(alloc, *part)?)?;
    }
    Ok(())
}

fn add_units(alloc: Global, plan: &mut Plan, starts: &[Start]) -> Result<(), Memory> {
    for (number, start) in starts.iter().enumerate() {
        let read: &[u16] = if number == 0 { &[] } else { &[0] };
        let cells = cells(alloc, read)?;
        let start = *start;
        plan.units.push(Unit { start, cells })?;
    }
    Ok(())
}

fn fill(alloc: Global, plan: &mut Plan, parts: &[Part], starts: &[Start]) -> Result<(), Memory> {
    add_blocks(alloc, plan, parts)?;
    add_units(alloc, plan, starts)
}

/// Whether a program and these parts are a valid plan. None where memory is wanting.
fn is_plan(alloc: Global, program: &Program, planned: Planned) -> Option<bool> {
    let (_, (leaf, loops), parts, starts, _) = planned;
    let mut plan = Plan {
        policy: Policy { leaf, loops },
        blocks: Seq::new(alloc),
        units: Seq::new(alloc),
    };
    match fill(alloc, &mut plan, parts, starts) {
        Ok(()) => Some(is_valid_plan(&plan, program)),
        Err(Memory) => None,
    }
}

fn is_planned(alloc: Global, planned: Planned) -> Option<bool> {
    match read_source(alloc, planned.0.as_bytes()) {
        Ok(program) => is_plan(alloc, &program, planned),
        Err(_) => None,
    }
}

fn are_planned(alloc: Global, rows: &[Planned]) -> bool {
    for planned in rows {
        if is_planned(alloc, *planned) != Some(planned.4) {
            return false;
        }
    }
    true
}

const FUNCTIONS: Policy = Policy { leaf: 0, loops: 0 };

// With leaf 8 `put`, of seven statements and no call, is no block; with loops 3 both loops are blocks.
const POLICIES: [(u16, u16, bool); 4] = [(0, 0, true), (8, 0, false), (7, 0, true), (0, 3, false)];

/// Whether a plan of functions alone is one of these policies.
fn has_policies(program: &Program, plan: &mut Plan) -> bool {
    for (leaf, loops, valid) in &POLICIES {
        plan.policy = Policy {
            leaf: *leaf,
            loops: *loops,
        };
        if is_valid_plan(plan, program) != *valid {
            return false;
        }
    }
    true
}

fn are_bare_blocks(blocks: &[Block], others: &[Block]) -> bool {
    for (block, other) in blocks.iter().zip(others.iter()) {
        if !is_same_kind(block.kind, other.kind) || block.value != other.value {
            return false;
        }
        if block.prelog.len() != 0 || block.postlog.len() != 0 {
            return false;
        }
    }
    blocks.len() == others.len()
}

fn are_bare_units(units: &[Unit], others: &[Unit]) -> bool {
    for (unit, other) in units.iter().zip(others.iter()) {
        if !is_same_start(unit.start, other.start) || unit.cells.len() != 0 {
            return false;
        }
    }
    units.len() == others.len()
}

/// Whether the plan without cells is valid, has the blocks and units of this one, and a returned value alone.
fn has_bare(alloc: Global, program: &Program, plan: &Plan) -> bool
    requires { IsValid program.now }
{
    match bare_plan(alloc, program, &FUNCTIONS) {
        Ok(bare) => {
            is_valid_plan(&bare, program)
                && are_bare_blocks(bare.blocks.as_slice(), plan.blocks.as_slice())
                && are_bare_units(bare.units.as_slice(), plan.units.as_slice())
        }
        Err(_) => false,
    }
}

/// Whether the program is valid, its plan so under the policies that are, and the plan without cells with it.
fn is_valid_by_policies(alloc: Global, program: &Program) -> bool
    requires { IsValid program.now }
{
    match partition(alloc, program, &FUNCTIONS) {
        Ok(mut plan) => {
            is_valid_program(program)
                && has_bare(alloc, program, &plan)
                && has_policies(program, &mut plan)
        }
        Err(_) => false,
    }
}

fn holds_of_buffer(alloc: Global) -> bool {
    match read_source(alloc, BUFFER.as_bytes()) {
        Ok(program) => is_valid_by_policies(alloc, &program),
        Err(_) => false,
    }
}

#[test]
fn plans_of_worked_programs(rt: HostRuntime) {
    assert!(rt; are_planned(rt.alloc(), &CALLS));
    assert!(rt; are_planned(rt.alloc(), &RECURSIONS));
    assert!(rt; are_planned(rt.alloc(), &LOOPS));
    assert!(rt; holds_of_buffer(rt.alloc()));
}
