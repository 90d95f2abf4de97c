ghost use Rattle.std.specs.Prelude.{◌≡◌, ◌≤◌, ◌+◌, ◌*◌, length, IfOk, IfErr};
ghost use Rattle.ppd_ast.specs.Valid.{IsValid};
ghost use Rattle.ppd_check_stmts.specs.Elements.{elements_of};
ghost use Rattle.ppd_check.specs.Read.{IsRead, IsRefused, by_check};

use crate::checking::check;
use crate::error::{CheckError, SourceError};
use crate::parsed::read_tree;
use ppd_ast::Program;
use std::alloc::Global;

impl From<CheckError> for SourceError {
    ghost from_gives = { λ e result. result ≡ by_check e };

    fn from(error: CheckError) -> Self {
        match error {
            CheckError::Memory => SourceError::Memory,
            fault => SourceError::Check(fault),
        }
    }
}

/// The program of a source: its tokens, their tree, and the tree's table. It is answered for exactly the sources of the
/// language, and is a valid program. It is linear in the source: its lists have at most 27 elements for each byte
/// and 27 more together, beside the start values of the shared cells, which are at most 1,024.
///
/// Otherwise the first fault of the first part that finds one: `Lex`, `Syntax` and `Check`, in this order. `Memory` is
/// want of memory, which no part answers itself.
pub fn read_source(alloc: Global, bytes: &[u8]) -> Result<Program, SourceError>
    ensures read { IfOk result (λ p. IsRead bytes.now p) }
    ensures valid { IfOk result (λ p. IsValid p) }
    ensures few { IfOk result (λ p. elements_of p ≤ 27 * (length bytes.now + 1)) }
    ensures refused { IfErr result (λ e. IsRefused bytes.now e) }
{
    let tree = read_tree(alloc, bytes)?;
    let program = check(alloc, &tree)?;
    Ok(program)
}
