// The lines of a plan's blocks and units.
ghost use Rattle.std.specs.Prelude.{◌≡◌, ◌++◌, ℕ, List, codes, decimal, if◌then◌else◌, OnOk};
ghost use Rattle.ppd_ast.specs.declared.program.Program.{Program};
ghost use Rattle.ppd_ast.specs.Lookups.{body_numbered};
ghost use Rattle.ppd_text.specs.Texts.{place_text};
ghost use Rattle.ppd_text.specs.Names.{at_number};
ghost use Rattle.ppd_text.specs.Plans.{block_what, block_locals as locals_of_block, cells_text, block_line, lines_of, start_text, unit_line};

use crate::met::put_cells;
use crate::names::function_name;
use crate::text::{put, put_head, put_number, put_place};
use ppd_ast::{Block, BlockKind, Memory, Program, Start, Unit, Var};

fn put_body(text: &mut Vec<u8>, word: &[u8], program: &Program, body: u16) -> Result<(), Memory>
    ensures { OnOk result
        (text.new.items ≡ text.old.items ++ (word.now ++ (body_numbered program.now body).name)) }
{
    put(text, word)?;
    put(text, function_name(program, body))
}

fn put_stmt_place(text: &mut Vec<u8>, program: &Program, stmt: u32) -> Result<(), Memory>
    ensures { OnOk result
        (text.new.items
        ≡ text.old.items ++ at_number (λ x. place_text x.place) program.now.stmts stmt) }
{
    match program.stmts.get(stmt as usize) {
        Some(stmt) => put_place(text, stmt.place),
        None => Ok(()),
    }
}

/// Appends what a block is the code of: `process NAME`, `function NAME` or `loop PLACE`. `Memory` is want of memory;
/// what the text then holds is not said.
pub fn put_block_what(text: &mut Vec<u8>, program: &Program, kind: BlockKind) -> Result<(), Memory>
    ensures { OnOk result (text.new.items ≡ text.old.items ++ block_what program.now kind) }
{
    match kind {
        BlockKind::Function(body) => put_body(text, b"function ", program, body),
        BlockKind::Process(body) => put_body(text, b"process ", program, body),
        BlockKind::Loop(stmt) => {
            put(text, b"loop ")?;
            put_stmt_place(text, program, stmt)
        }
    }
}

/// The local variables of a body, none where there is none of this number.
pub fn locals_of(program: &Program, body: u16) -> &[Var]
    ensures { result.now ≡ (body_numbered program.now body).locals }
{
    match program.bodies.get(body as usize) {
        Some(body) => body.locals.as_slice(),
        None => &[],
    }
}

/// The local variables of the body in which a statement stands.
pub fn locals_round(program: &Program, stmt: u32) -> &[Var]
    ensures { result.now ≡ at_number (λ x. (body_numbered program.now x.body).locals) program.now.stmts stmt }
{
    match program.stmts.get(stmt as usize) {
        Some(stmt) => locals_of(program, stmt.body),
        None => &[],
    }
}

/// The local variables of the body that a block is, or in which its loop stands.
pub fn block_locals(program: &Program, kind: BlockKind) -> &[Var]
    ensures { result.now ≡ locals_of_block program.now kind }
{
    match kind {
        BlockKind::Function(body) | BlockKind::Process(body) => locals_of(program, body),
        BlockKind::Loop(stmt) => locals_round(program, stmt),
    }
}

fn put_postlog(text: &mut Vec<u8>, vars: &[Var], block: &Block) -> Result<(), Memory>
    ensures { OnOk result
        (text.new.items
        ≡ text.old.items ++ (if block.now.value then codes " value" else cells_text vars.now block.now.postlog)) }
{
    if block.value {
        return put(text, b" value");
    }
    put_cells(text, vars, block.postlog.as_slice())
}

// Appends what the prelog and the postlog of a block hold.
fn put_logs(text: &mut Vec<u8>, vars: &[Var], block: &Block) -> Result<(), Memory>
    ensures { OnOk result
        (text.new.items
        ≡ text.old.items
        ++ (codes " prelog" ++ cells_text vars.now block.now.prelog ++ codes " postlog"
        ++ (if block.now.value then codes " value" else cells_text vars.now block.now.postlog))) }
{
    put(text, b" prelog")?;
    put_cells(text, vars, block.prelog.as_slice())?;
    put(text, b" postlog")?;
    put_postlog(text, vars, block)
}

// What has a line of its own among those of a plan, with its number.
pub(crate) trait Line {
    ghost line: { Program → ℕ → Self → List ℕ };

    fn put_line(&self, text: &mut Vec<u8>, program: &Program, number: usize) -> Result<(), Memory>
        ensures { OnOk result (text.new.items ≡ text.old.items ++ line program.now number self.now) };
}

impl Line for Block {
    ghost line = { block_line };

    fn put_line(&self, text: &mut Vec<u8>, program: &Program, number: usize) -> Result<(), Memory> {
        put_head(text, b"block ", number)?;
        put_block_what(text, program, self.kind)?;
        put_logs(text, block_locals(program, self.kind), self)?;
        put(text, b"\n")
    }
}

// Appends where a unit starts.
fn put_start(text: &mut Vec<u8>, program: &Program, start: Start) -> Result<(), Memory>
    ensures { OnOk result (text.new.items ≡ text.old.items ++ start_text program.now start) }
{
    match start {
        Start::Entry(body) => put_body(text, b"entry ", program, body),
        Start::After(stmt) => put_numbered(text, b"after ", stmt),
        Start::Enter(stmt) => put_numbered(text, b"enter ", stmt),
        Start::Exit(stmt) => put_numbered(text, b"exit ", stmt),
    }
}

fn put_numbered(text: &mut Vec<u8>, word: &[u8], number: u32) -> Result<(), Memory>
    ensures { OnOk result (text.new.items ≡ text.old.items ++ (word.now ++ decimal number)) }
{
    put(text, word)?;
    put_number(text, number)
}

impl Line for Unit {
    ghost line = { unit_line };

    fn put_line(&self, text: &mut Vec<u8>, program: &Program, number: usize) -> Result<(), Memory> {
        put_head(text, b"unit ", number)?;
        put_start(text, program, self.start)?;
        put(text, b" reads")?;
        put_cells(text, program.shared.as_slice(), self.cells.as_slice())?;
        put(text, b"\n")
    }
}

// Appends the lines of these items, whose numbers are their places.
pub(crate) fn put_lines<T: Line>(
    text: &mut Vec<u8>,
    program: &Program,
    items: &[T],
) -> Result<(), Memory>
    ensures { OnOk result (text.new.items ≡ text.old.items ++ lines_of (T.line program.now) items.now) }
{
    for number in 0..items.len() {
        items[number].put_line(text, program, number)?;
    }
    Ok(())
}
