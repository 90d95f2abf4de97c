ghost use Rattle.std.specs.Prelude.{◌≡◌, ◌<◌, ◌≤◌, ◌^◌, length, if◌then◌else◌};
ghost use Rattle.ppd_ast.specs.Lookups.{kind_of, body_numbered};
ghost use Rattle.ppd_sem.specs.Effects.{arguments_of, body_of, branch_of};
ghost use Rattle.std.specs.List.{position};
ghost use Rattle.ppd_sem.specs.Tables.{block_of, same_block, same_start, unit_of};

use ppd_ast::{BlockKind, Kind, Plan, Program, Start};

/// The kind of a statement.
pub(crate) fn kind_at(program: &Program, stmt: u32) -> &Kind
    requires { stmt < length program.now.stmts }
    ensures { result.now ≡ kind_of program.now stmt }
{
    &program.stmts.as_slice()[stmt as usize].kind
}

/// The outermost statements of a body, and none past the table.
pub(crate) fn top_at(program: &Program, body: u16) -> &[u32]
    ensures { result.now ≡ (body_numbered program.now body).top }
{
    match program.bodies.get(body as usize) {
        Some(body) => body.top.as_slice(),
        None => &[],
    }
}

/// The arguments of a call.
pub(crate) fn arguments_in(kind: &Kind) -> &[u32]
    ensures { result.now ≡ arguments_of kind.now }
{
    match kind {
        Kind::Call { args, .. } => args.as_slice(),
        _ => &[],
    }
}

/// The statements inside a `While`.
pub(crate) fn body_in(kind: &Kind) -> &[u32]
    ensures { result.now ≡ body_of kind.now }
{
    match kind {
        Kind::While(_, body) => body.as_slice(),
        _ => &[],
    }
}

/// The statements that an `If` goes on with.
pub(crate) fn branch_in(kind: &Kind, holds: bool) -> &[u32]
    ensures { result.now ≡ branch_of kind.now (λ first second. if holds then first else second) }
{
    match kind {
        Kind::If(_, first, second) => {
            if holds {
                first.as_slice()
            } else {
                second.as_slice()
            }
        }
        _ => &[],
    }
}

fn is_same_block(a: BlockKind, b: BlockKind) -> bool
    ensures { result ≡ same_block a b }
{
    match (a, b) {
        (BlockKind::Function(a), BlockKind::Function(b)) => a == b,
        (BlockKind::Process(a), BlockKind::Process(b)) => a == b,
        (BlockKind::Loop(a), BlockKind::Loop(b)) => a == b,
        _ => false,
    }
}

fn is_same_start(a: Start, b: Start) -> bool
    ensures { result ≡ same_start a b }
{
    match (a, b) {
        (Start::Entry(a), Start::Entry(b)) => a == b,
        (Start::After(a), Start::After(b)) => a == b,
        (Start::Enter(a), Start::Enter(b)) => a == b,
        (Start::Exit(a), Start::Exit(b)) => a == b,
        _ => false,
    }
}

fn block_position(plan: &Plan, kind: BlockKind) -> Option<usize>
    ensures { result ≡ block_of plan.now kind }
{
    plan.blocks
        .as_slice()
        .iter()
        .position(|block| is_same_block(block.kind, kind))
}

fn unit_position(plan: &Plan, start: Start) -> Option<usize>
    ensures { result ≡ position (λ u. same_start u.start start) plan.now.units }
{
    plan.units
        .as_slice()
        .iter()
        .position(|unit| is_same_start(unit.start, start))
}

/// The block of this kind, if it is one.
pub fn find_block(plan: &Plan, kind: BlockKind) -> Option<u16>
    requires { length plan.now.blocks ≤ 2 ^ 16 }
    ensures { result ≡ block_of plan.now kind }
{
    match block_position(plan, kind) {
        Some(block) => Some(block as u16),
        None => None,
    }
}

/// The unit with this start, and 0 without one.
pub fn find_unit(plan: &Plan, start: Start) -> u16
    requires { length plan.now.units ≤ 2 ^ 16 }
    ensures { result ≡ unit_of plan.now start }
{
    match unit_position(plan, start) {
        Some(unit) => unit as u16,
        None => 0,
    }
}
