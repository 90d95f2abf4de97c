// What a token is to the grammar.
ghost use Rattle.std.specs.Prelude.{◌≡◌};
ghost use Rattle.ppd_parse.specs.Grammar.{kind_of, is_operator};

use crate::symbol::Level;
use crate::{Kind, TokenKind};

/// What a token is to the grammar.
pub fn kind_of(kind: &TokenKind) -> Kind
    ensures { result ≡ kind_of kind.now }
{
    match kind {
        TokenKind::Name(_) => Kind::Name,
        TokenKind::Number(_) => Kind::Number,
        TokenKind::Word(kind) | TokenKind::Mark(kind) => *kind,
        TokenKind::End => Kind::End,
    }
}

// Whether the kind is a binary operator of the level.
pub fn is_operator(level: Level, kind: Kind) -> bool
    ensures { result ≡ is_operator level kind }
{
    match level {
        Level::Product => matches!(&kind, Kind::StarMark | Kind::SlashMark | Kind::PercentMark),
        Level::Sum => matches!(&kind, Kind::PlusMark | Kind::MinusMark),
        Level::Compare => matches!(
            &kind,
            Kind::LessMark | Kind::AtMostMark | Kind::MoreMark | Kind::AtLeastMark
        ),
        Level::Equal => matches!(&kind, Kind::EqualMark | Kind::UnequalMark),
        Level::And => matches!(&kind, Kind::AndMark),
        Level::Or => matches!(&kind, Kind::OrMark),
    }
}
