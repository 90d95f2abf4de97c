ghost use Rattle.std.specs.Prelude.{◌≡◌, ◌↔◌, ◌<◌, ◌-◌, [], ◌∷◌, IsTrue, length, map, if◌then◌else◌};
ghost use Rattle.std.specs.List.{flat_map, enumerate_from};
ghost use Rattle.ppd_ast.specs.declared.plan.BlockKind.TheVariants.{Function, Process};
ghost use Rattle.ppd_ast.specs.Numbered.{numbers_of, is_block_body, loops_at, starts_at, of_body};
ghost use Rattle.test_valid.specs.Begins.{Begins};

use ppd_ast::{Block, BlockKind, Body, Policy, Start, Stmt, Unit};
use ppd_blocks::{is_block_body, is_block_loop};
use ppd_sets::end_of;

// What a policy numbers, body by body: the blocks, known by their kinds, and the units, known by their starts.
pub(crate) trait Numbered: Sized {
    ghost use Rattle.std.specs.Prelude.{ℕ, List};
    ghost use Rattle.ppd_ast.specs.declared.program.Stmt.{Stmt};
    ghost use Rattle.ppd_ast.specs.declared.program.Body.{Body};
    ghost use Rattle.ppd_ast.specs.declared.plan.Policy.{Policy};

    type Key;

    ghost key: { Self → Self.Key };

    // What there is at a statement.
    ghost at_stmt: { List Stmt → Policy → ℕ → List Self.Key };

    // What a body itself is.
    ghost own: { List Stmt → Policy → ℕ → Body → List Self.Key };

    // The place after what there is at the statement, where it stands in the list from this place on.
    fn past_stmt(
        list: &[Self],
        place: usize,
        stmts: &[Stmt],
        policy: Policy,
        number: u32,
    ) -> Option<usize>
        requires { number < length stmts.now }
        ensures { Begins result (map key list.now) place (at_stmt stmts.now policy number) };

    // The same of what the body itself is.
    fn past_own(
        list: &[Self],
        place: usize,
        stmts: &[Stmt],
        policy: Policy,
        number: usize,
        body: &Body,
    ) -> Option<usize>
        ensures { Begins result (map key list.now) place (own stmts.now policy number body.now) };
}

/// Whether two units start at the same place.
pub fn is_same_start(one: Start, other: Start) -> bool
    ensures { IsTrue result ↔ (one ≡ other) }
{
    match (one, other) {
        (Start::Entry(body), Start::Entry(number)) => body == number,
        (Start::After(stmt), Start::After(number))
        | (Start::Enter(stmt), Start::Enter(number))
        | (Start::Exit(stmt), Start::Exit(number)) => stmt == number,
        _ => false,
    }
}

/// Whether two e-blocks are of the same code.
pub fn is_same_kind(one: BlockKind, other: BlockKind) -> bool
    ensures { IsTrue result ↔ (one ≡ other) }
{
    match (one, other) {
        (BlockKind::Function(body), BlockKind::Function(number))
        | (BlockKind::Process(body), BlockKind::Process(number)) => body == number,
        (BlockKind::Loop(stmt), BlockKind::Loop(number)) => stmt == number,
        _ => false,
    }
}

fn start_at(units: &[Unit], place: usize, start: Start) -> Option<usize>
    ensures { Begins result (map (λ unit. unit.start) units.now) place (start ∷ []) }
{
    match units.get(place) {
        None => None,
        Some(unit) => {
            if is_same_start(unit.start, start) {
                Some(place + 1)
            } else {
                None
            }
        }
    }
}

fn entry_at(units: &[Unit], place: usize, body: usize) -> Option<usize>
    ensures { Begins result (map (λ unit. unit.start) units.now) place (Start.Entry body ∷ []) }
{
    match units.get(place) {
        None => None,
        Some(unit) => match unit.start {
            Start::Entry(number) => {
                if number as usize == body {
                    Some(place + 1)
                } else {
                    None
                }
            }
            _ => None,
        },
    }
}

impl Numbered for Unit {
    ghost use Rattle.ppd_ast.specs.declared.plan.Start.TheVariants.{Entry};

    type Key = Start;

    ghost key = { λ unit. unit.start };

    ghost at_stmt = { starts_at };

    ghost own = { λ stmts policy number body. Entry number ∷ [] };

    fn past_stmt(
        list: &[Unit],
        place: usize,
        stmts: &[Stmt],
        policy: Policy,
        number: u32,
    ) -> Option<usize> {
        let stmt = &stmts[number as usize];
        if stmt.kind.is_left() {
            return start_at(list, place, Start::After(number));
        }
        if !is_block_loop(stmts, policy, stmt) {
            return Some(place);
        }
        let next = start_at(list, place, Start::Enter(number))?;
        start_at(list, next, Start::Exit(number))
    }

    fn past_own(
        list: &[Unit],
        place: usize,
        _stmts: &[Stmt],
        _policy: Policy,
        number: usize,
        _body: &Body,
    ) -> Option<usize> {
        entry_at(list, place, number)
    }
}

fn loop_at(blocks: &[Block], place: usize, number: u32) -> Option<usize>
    ensures { Begins result (map (λ block. block.kind) blocks.now) place (BlockKind.Loop number ∷ []) }
{
    match blocks.get(place) {
        None => None,
        Some(block) => {
            if is_same_kind(block.kind, BlockKind::Loop(number)) {
                Some(place + 1)
            } else {
                None
            }
        }
    }
}

fn body_at(blocks: &[Block], place: usize, number: usize, body: &Body) -> Option<usize>
    ensures { Begins result (map (λ block. block.kind) blocks.now) place
        ((if body.now.process then BlockKind.Process number else BlockKind.Function number) ∷ []) }
{
    match blocks.get(place) {
        None => None,
        Some(block) => {
            if is_of_body(block.kind, number, body.process) {
                Some(place + 1)
            } else {
                None
            }
        }
    }
}

fn is_of_body(kind: BlockKind, body: usize, process: bool) -> bool
    ensures { IsTrue result ↔ (kind ≡ (if process then BlockKind.Process body else BlockKind.Function body)) }
{
    match kind {
        BlockKind::Function(number) => !process && number as usize == body,
        BlockKind::Process(number) => process && number as usize == body,
        BlockKind::Loop(_) => false,
    }
}

impl Numbered for Block {
    type Key = BlockKind;

    ghost key = { λ block. block.kind };

    ghost at_stmt = { loops_at };

    ghost own = { λ stmts policy number body. if is_block_body stmts policy body
        then (if body.process then Process number else Function number) ∷ [] else [] };

    fn past_stmt(
        list: &[Block],
        place: usize,
        stmts: &[Stmt],
        policy: Policy,
        number: u32,
    ) -> Option<usize> {
        if !is_block_loop(stmts, policy, &stmts[number as usize]) {
            return Some(place);
        }
        loop_at(list, place, number)
    }

    fn past_own(
        list: &[Block],
        place: usize,
        stmts: &[Stmt],
        policy: Policy,
        number: usize,
        body: &Body,
    ) -> Option<usize> {
        if !is_block_body(stmts, policy, body) {
            return Some(place);
        }
        body_at(list, place, number, body)
    }
}

fn past_stmts<T: Numbered>(
    list: &[T],
    place: usize,
    stmts: &[Stmt],
    policy: Policy,
    body: &Body,
) -> Option<usize>
    ensures { Begins result (map T.key list.now) place
        (flat_map (T.at_stmt stmts.now policy) (numbers_of stmts.now body.now)) }
{
    let mut next = place;
    for number in body.first..end_of(stmts, body) {
        next = T::past_stmt(list, next, stmts, policy, number)?;
    }
    Some(next)
}

fn past_body<T: Numbered>(
    list: &[T],
    place: usize,
    stmts: &[Stmt],
    policy: Policy,
    number: usize,
    body: &Body,
) -> Option<usize>
    ensures { Begins result (map T.key list.now) place
        (of_body T.own T.at_stmt stmts.now policy number body.now) }
{
    let next = T::past_own(list, place, stmts, policy, number, body)?;
    past_stmts(list, next, stmts, policy, body)
}

fn past_bodies<T: Numbered>(
    list: &[T],
    stmts: &[Stmt],
    policy: Policy,
    bodies: &[Body],
) -> Option<usize>
    ensures { Begins result (map T.key list.now) 0
        (flat_map (λ e. of_body T.own T.at_stmt stmts.now policy e.0 e.1) (enumerate_from 0 bodies.now)) }
{
    let mut next = 0;
    for number in 0..bodies.len() {
        next = past_body(list, next, stmts, policy, number, &bodies[number])?;
    }
    Some(next)
}

// Whether these are all that the policy numbers, in the order of their numbers.
pub(crate) fn are_numbered<T: Numbered>(
    list: &[T],
    stmts: &[Stmt],
    policy: Policy,
    bodies: &[Body],
) -> bool
    ensures { IsTrue result
        ↔ (map T.key list.now
        ≡ flat_map (λ e. of_body T.own T.at_stmt stmts.now policy e.0 e.1) (enumerate_from 0 bodies.now)) }
{
    match past_bodies(list, stmts, policy, bodies) {
        None => false,
        Some(end) => list.len() <= end,
    }
}
