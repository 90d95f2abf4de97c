// How processes, cells and the words of traps are written, and whose cells are named.
ghost use Rattle.std.specs.Prelude.{◌≡◌, ◌≤◌, ◌-◌, ◌++◌, [], IfOk, OnOk, codes, decimal, if◌then◌else◌, is_none};
ghost use Rattle.ppd_ast.specs.Cells.{holds as holds_of};
ghost use Rattle.ppd_text.specs.CellNames.{at_entry as at_entry_of, cell_text};
ghost use Rattle.ppd_text.specs.CellNames.{process_name as process_name_of, trap_word};
ghost use Rattle.ppd_text.specs.Names.{at_number};
ghost use Rattle.ppd_text.specs.Plans.{block_what};

use crate::names::body_name;
use crate::plans::put_block_what;
use crate::text::{put, put_number};
use ppd_ast::{Memory, Plan, Program, Trap, Var};
use ppd_model::At;
use std::alloc::Global;

/// The name of a process, empty where there is none of this number.
pub fn process_name(program: &Program, process: u8) -> &[u8]
    ensures { result.now ≡ process_name_of program.now process }
{
    body_name(program, program.functions as usize + process as usize)
}

/// The line of a test that failed at an entry of a process, which begins with these words.
pub fn at_entry(alloc: Global, program: &Program, words: &[u8], at: At) -> Result<Vec<u8>, Memory>
    ensures { IfOk result (λ line. line.items ≡ at_entry_of program.now words.now at) }
{
    let mut line = Vec::new(alloc);
    put(&mut line, words)?;
    put(&mut line, process_name(program, at.process))?;
    put(&mut line, b" ")?;
    put_number(&mut line, at.entry)?;
    put(&mut line, b"\n")?;
    Ok(line)
}

/// Whether the cell is one of the variable's.
fn holds(cell: u16, var: &Var) -> bool
    ensures { result ≡ holds_of cell var.now }
{
    let size = match var.len {
        None => 1,
        Some(len) => len,
    };
    var.base <= cell && (cell as u32) < var.base as u32 + size as u32
}

fn put_element(text: &mut Vec<u8>, var: &Var, cell: u16) -> Result<(), Memory>
    requires { var.now.base ≤ cell }
    ensures { OnOk result
        (text.new.items
        ≡ text.old.items
        ++ (var.now.name
        ++ (if is_none var.now.len then [] else codes "[" ++ decimal (cell - var.now.base) ++ codes "]"))) }
{
    put(text, var.name.as_slice())?;
    if var.len.is_none() {
        return Ok(());
    }
    put(text, b"[")?;
    put_number(text, (cell - var.base) as u32)?;
    put(text, b"]")
}

/// Appends a cell as a part of the first variable that holds it: a scalar by its name, an element by its index.
/// `Memory` is want of memory, here and below; what the text then holds is not said.
pub fn put_cell(text: &mut Vec<u8>, vars: &[Var], cell: u16) -> Result<(), Memory>
    ensures { OnOk result (text.new.items ≡ text.old.items ++ cell_text vars.now cell) }
{
    for var in vars {
        if holds(cell, var) {
            return put_element(text, var, cell);
        }
    }
    Ok(())
}

/// Appends what a block is the code of: `process NAME`, `function NAME` or `loop PLACE`; nothing where there is no
/// block of this number.
pub fn put_what(
    text: &mut Vec<u8>,
    program: &Program,
    plan: &Plan,
    block: u16,
) -> Result<(), Memory>
    ensures { OnOk result
        (text.new.items ≡ text.old.items ++ at_number (λ b. block_what program.now b.kind) plan.now.blocks block) }
{
    match plan.blocks.get(block as usize) {
        Some(block) => put_block_what(text, program, block.kind),
        None => Ok(()),
    }
}

/// Appends the word for a trap: `overflow`, `zero`, `index`, `assert` or `depth`.
pub fn put_trap(text: &mut Vec<u8>, trap: Trap) -> Result<(), Memory>
    ensures { OnOk result (text.new.items ≡ text.old.items ++ trap_word trap) }
{
    match trap {
        Trap::Overflow => put(text, b"overflow"),
        Trap::Zero => put(text, b"zero"),
        Trap::Index => put(text, b"index"),
        Trap::Assert => put(text, b"assert"),
        Trap::Depth => put(text, b"depth"),
    }
}
