// The tree of a source.
ghost use Rattle.std.specs.Prelude.{◌≡◌, ◌≤◌, ◌*◌, ◌^◌, length, IfOk, IfErr};
ghost use Rattle.ppd_parse.specs.Tree.{tree_of, IsTable};
ghost use Rattle.ppd_check.specs.Read.{IsTreeOf, IsRefused, by_lex, by_parse};

use crate::error::SourceError;
use ppd_parse::{LexError, SyntaxError, Tree, lex, parse};
use std::alloc::Global;

impl From<LexError> for SourceError {
    ghost from_gives = { λ e result. result ≡ by_lex e };

    fn from(error: LexError) -> Self {
        match error {
            LexError::Memory => SourceError::Memory,
            fault => SourceError::Lex(fault),
        }
    }
}

impl From<SyntaxError> for SourceError {
    ghost from_gives = { λ e result. result ≡ by_parse e };

    fn from(error: SyntaxError) -> Self {
        match error {
            SyntaxError::Memory => SourceError::Memory,
            fault => SourceError::Syntax(fault),
        }
    }
}

// The tree of a source's bytes, or why it has none.
pub fn read_tree(alloc: Global, bytes: &[u8]) -> Result<Tree, SourceError>
    ensures parsed { IfOk result (λ tree. IsTreeOf bytes.now (tree_of tree.nodes)) }
    ensures table { IfOk result (λ tree. IsTable tree.nodes) }
    ensures few { IfOk result (λ tree. length tree.nodes ≤ 3 * 2 ^ 30) }
    ensures refused { IfErr result (λ error. IsRefused bytes.now error) }
{
    let tokens = lex(alloc, bytes)?;
    let tree = parse(alloc, &tokens)?;
    Ok(tree)
}
