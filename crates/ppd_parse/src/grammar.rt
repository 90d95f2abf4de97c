// The grammar as the parser reads it: the table of `specs/Grammar.antt` and `specs/Choice.antt`, in their order.
ghost use Rattle.std.specs.Prelude.{◌≡◌, Some, None, MatchOption};
ghost use Rattle.ppd_parse.specs.Choice.{expansion};
ghost use Rattle.ppd_parse.specs.Grammar.{operand_parts, parts, chain_more};

use crate::Kind;
use crate::kind::is_operator;
use crate::symbol::{Level, Part, Rule, Symbol};
use Part::{Deeper, Here, Inside, Wrap, WrapBack};
use Symbol::Exact;

// An operand of the weakest level: what binds more strongly. A stronger level's has fewer of these parts.
const OPERAND: [Part; 6] = [
    Here(Symbol::Unary),
    Here(Symbol::Chain(Level::Product)),
    Here(Symbol::Chain(Level::Sum)),
    Here(Symbol::Chain(Level::Compare)),
    Here(Symbol::Chain(Level::Equal)),
    Here(Symbol::Chain(Level::And)),
];

// An operand of a level.
fn operand(level: Level) -> &'static [Part]
    ensures { result.now ≡ operand_parts level }
{
    match level {
        Level::Product => &OPERAND[..1],
        Level::Sum => &OPERAND[..2],
        Level::Compare => &OPERAND[..3],
        Level::Equal => &OPERAND[..4],
        Level::And => &OPERAND[..5],
        Level::Or => &OPERAND,
    }
}

// The rest of a chain of operands of a level, where an operator of it is next.
macro_rules! chain {
    ($level:expr) => {
        &[
            Here(Symbol::Operator($level)),
            Here(Symbol::Operand($level)),
            Wrap(Rule::Binary),
            Here(Symbol::Chain($level)),
        ]
    };
}

fn chain(level: Level) -> &'static [Part]
    ensures { result.now ≡ parts (chain_more level) }
{
    match level {
        Level::Product => chain!(Level::Product),
        Level::Sum => chain!(Level::Sum),
        Level::Compare => chain!(Level::Compare),
        Level::Equal => chain!(Level::Equal),
        Level::And => chain!(Level::And),
        Level::Or => chain!(Level::Or),
    }
}

// The parts of a source's items.
fn items(kind: Kind) -> Option<&'static [Part]>
    ensures { MatchOption result (expansion Symbol.Items kind ≡ None) (λ parts.
        expansion Symbol.Items kind ≡ Some parts.now) }
{
    match kind {
        Kind::End => Some(&[Here(Exact(Kind::End))]),
        Kind::SharedWord => Some(&[Here(Symbol::Shared), Here(Symbol::Items)]),
        Kind::SemWord => Some(&[Here(Symbol::Sems), Here(Symbol::Items)]),
        Kind::ChanWord => Some(&[Here(Symbol::Chans), Here(Symbol::Items)]),
        Kind::IntWord | Kind::VoidWord => Some(&[Here(Symbol::Function), Here(Symbol::Items)]),
        Kind::ProcessWord => Some(&[Here(Symbol::Process), Here(Symbol::Items)]),
        _ => None,
    }
}

// The parts of a function.
fn function(kind: Kind) -> Option<&'static [Part]>
    ensures { MatchOption result (expansion Symbol.Function kind ≡ None) (λ parts.
        expansion Symbol.Function kind ≡ Some parts.now) }
{
    match kind {
        Kind::IntWord => Some(&[
            Here(Exact(Kind::IntWord)),
            Here(Exact(Kind::Name)),
            Deeper(Exact(Kind::LeftParen)),
            Deeper(Symbol::ParamsEnd),
            Here(Symbol::Block),
            Wrap(Rule::Function),
        ]),
        Kind::VoidWord => Some(&[
            Here(Exact(Kind::VoidWord)),
            Here(Exact(Kind::Name)),
            Deeper(Exact(Kind::LeftParen)),
            Deeper(Symbol::ParamsEnd),
            Here(Symbol::Block),
            Wrap(Rule::Function),
        ]),
        _ => None,
    }
}

// The parts of the statements up to a closing brace.
fn stmts(kind: Kind) -> Option<&'static [Part]>
    ensures { MatchOption result (expansion Symbol.Stmts kind ≡ None) (λ parts.
        expansion Symbol.Stmts kind ≡ Some parts.now) }
{
    match kind {
        Kind::RightBrace => Some(&[Here(Exact(Kind::RightBrace))]),
        Kind::IntWord => Some(&[Here(Symbol::Local), Here(Symbol::Stmts)]),
        Kind::LeftBrace
        | Kind::Semicolon
        | Kind::Name
        | Kind::IfWord
        | Kind::WhileWord
        | Kind::ForWord
        | Kind::ReturnWord
        | Kind::TakeWord
        | Kind::GiveWord
        | Kind::SendWord
        | Kind::PrintWord
        | Kind::AssertWord => Some(&[Here(Symbol::Stmt), Here(Symbol::Stmts)]),
        _ => None,
    }
}

// The parts of a value that is stored.
fn value(kind: Kind) -> Option<&'static [Part]>
    ensures { MatchOption result (expansion Symbol.Value kind ≡ None) (λ parts.
        expansion Symbol.Value kind ≡ Some parts.now) }
{
    match kind {
        Kind::RecvWord => Some(&[
            Here(Exact(Kind::RecvWord)),
            Deeper(Exact(Kind::LeftParen)),
            Deeper(Exact(Kind::Name)),
            Deeper(Exact(Kind::RightParen)),
            Wrap(Rule::Value),
        ]),
        Kind::MinusMark | Kind::NotMark | Kind::LeftParen | Kind::Number | Kind::Name => Some(&[
            Here(Symbol::CallOrExpr),
            Wrap(Rule::Value),
        ]),
        _ => None,
    }
}

// The parts of a call or an expression.
fn call_or_expr(kind: Kind) -> Option<&'static [Part]>
    ensures { MatchOption result (expansion Symbol.CallOrExpr kind ≡ None) (λ parts.
        expansion Symbol.CallOrExpr kind ≡ Some parts.now) }
{
    match kind {
        Kind::Name => Some(&[Inside(Exact(Kind::Name)), Here(Symbol::NamedRest)]),
        Kind::MinusMark | Kind::NotMark | Kind::LeftParen | Kind::Number => Some(&[
            Inside(Symbol::OtherUnary),
            Inside(Symbol::ExprRest),
        ]),
        _ => None,
    }
}

// The parts of a change after its place.
fn change_end(kind: Kind) -> Option<&'static [Part]>
    ensures { MatchOption result (expansion Symbol.ChangeEnd kind ≡ None) (λ parts.
        expansion Symbol.ChangeEnd kind ≡ Some parts.now) }
{
    match kind {
        Kind::AssignMark => Some(&[Here(Exact(Kind::AssignMark)), Here(Symbol::Expr)]),
        Kind::AddMark => Some(&[Here(Exact(Kind::AddMark)), Here(Symbol::Expr)]),
        Kind::SubtractMark => Some(&[Here(Exact(Kind::SubtractMark)), Here(Symbol::Expr)]),
        Kind::IncreaseMark => Some(&[Here(Exact(Kind::IncreaseMark))]),
        Kind::DecreaseMark => Some(&[Here(Exact(Kind::DecreaseMark))]),
        _ => None,
    }
}

// The parts of an operand that is no place.
fn other_unary(kind: Kind) -> Option<&'static [Part]>
    ensures { MatchOption result (expansion Symbol.OtherUnary kind ≡ None) (λ parts.
        expansion Symbol.OtherUnary kind ≡ Some parts.now) }
{
    match kind {
        Kind::MinusMark => Some(&[
            Deeper(Exact(Kind::MinusMark)),
            Deeper(Symbol::Unary),
            Wrap(Rule::Unary),
        ]),
        Kind::NotMark => Some(&[
            Deeper(Exact(Kind::NotMark)),
            Deeper(Symbol::Unary),
            Wrap(Rule::Unary),
        ]),
        Kind::LeftParen => Some(&[
            Deeper(Exact(Kind::LeftParen)),
            Deeper(Symbol::Expr),
            Deeper(Exact(Kind::RightParen)),
            Wrap(Rule::Unary),
        ]),
        Kind::Number => Some(&[Here(Exact(Kind::Number)), Wrap(Rule::Unary)]),
        _ => None,
    }
}

// The parts of a statement.
fn stmt(kind: Kind) -> Option<&'static [Part]>
    ensures { MatchOption result (expansion Symbol.Stmt kind ≡ None) (λ parts.
        expansion Symbol.Stmt kind ≡ Some parts.now) }
{
    match kind {
        Kind::LeftBrace => Some(&[Here(Symbol::Block), Wrap(Rule::Stmt)]),
        Kind::Semicolon => Some(&[Here(Exact(Kind::Semicolon)), Wrap(Rule::Stmt)]),
        Kind::Name => Some(&[Here(Exact(Kind::Name)), Here(Symbol::StmtRest)]),
        Kind::IfWord => Some(&[
            Here(Exact(Kind::IfWord)),
            Deeper(Exact(Kind::LeftParen)),
            Deeper(Symbol::Expr),
            Deeper(Exact(Kind::RightParen)),
            Deeper(Symbol::Stmt),
            Here(Symbol::ElsePart),
            Wrap(Rule::Stmt),
        ]),
        Kind::WhileWord => Some(&[
            Here(Exact(Kind::WhileWord)),
            Deeper(Exact(Kind::LeftParen)),
            Deeper(Symbol::Expr),
            Deeper(Exact(Kind::RightParen)),
            Deeper(Symbol::Stmt),
            Wrap(Rule::Stmt),
        ]),
        Kind::ForWord => Some(&[
            Here(Exact(Kind::ForWord)),
            Deeper(Exact(Kind::LeftParen)),
            Deeper(Symbol::ForStart),
            Deeper(Symbol::ForTest),
            Deeper(Symbol::ForStep),
            Deeper(Symbol::Stmt),
            Wrap(Rule::Stmt),
        ]),
        Kind::ReturnWord => Some(&[
            Here(Exact(Kind::ReturnWord)),
            Here(Symbol::ReturnEnd),
            Wrap(Rule::Stmt),
        ]),
        Kind::TakeWord => Some(&[
            Here(Exact(Kind::TakeWord)),
            Deeper(Exact(Kind::LeftParen)),
            Deeper(Exact(Kind::Name)),
            Deeper(Exact(Kind::RightParen)),
            Here(Exact(Kind::Semicolon)),
            Wrap(Rule::Stmt),
        ]),
        Kind::GiveWord => Some(&[
            Here(Exact(Kind::GiveWord)),
            Deeper(Exact(Kind::LeftParen)),
            Deeper(Exact(Kind::Name)),
            Deeper(Exact(Kind::RightParen)),
            Here(Exact(Kind::Semicolon)),
            Wrap(Rule::Stmt),
        ]),
        Kind::SendWord => Some(&[
            Here(Exact(Kind::SendWord)),
            Deeper(Exact(Kind::LeftParen)),
            Deeper(Exact(Kind::Name)),
            Deeper(Exact(Kind::Comma)),
            Deeper(Symbol::Expr),
            Deeper(Exact(Kind::RightParen)),
            Here(Exact(Kind::Semicolon)),
            Wrap(Rule::Stmt),
        ]),
        Kind::PrintWord => Some(&[
            Here(Exact(Kind::PrintWord)),
            Deeper(Exact(Kind::LeftParen)),
            Deeper(Symbol::Expr),
            Deeper(Exact(Kind::RightParen)),
            Here(Exact(Kind::Semicolon)),
            Wrap(Rule::Stmt),
        ]),
        Kind::AssertWord => Some(&[
            Here(Exact(Kind::AssertWord)),
            Deeper(Exact(Kind::LeftParen)),
            Deeper(Symbol::Expr),
            Deeper(Exact(Kind::RightParen)),
            Here(Exact(Kind::Semicolon)),
            Wrap(Rule::Stmt),
        ]),
        _ => None,
    }
}

// The parts of a statement after its first name.
fn stmt_rest(kind: Kind) -> Option<&'static [Part]>
    ensures { MatchOption result (expansion Symbol.StmtRest kind ≡ None) (λ parts.
        expansion Symbol.StmtRest kind ≡ Some parts.now) }
{
    match kind {
        Kind::LeftParen => Some(&[
            Deeper(Exact(Kind::LeftParen)),
            Deeper(Symbol::Args),
            Wrap(Rule::Call),
            Here(Exact(Kind::Semicolon)),
            Wrap(Rule::Stmt),
        ]),
        Kind::LeftBracket => Some(&[
            Deeper(Exact(Kind::LeftBracket)),
            Deeper(Symbol::Expr),
            Deeper(Exact(Kind::RightBracket)),
            Wrap(Rule::Place),
            Here(Symbol::PlaceRest),
        ]),
        Kind::AssignMark
        | Kind::AddMark
        | Kind::SubtractMark
        | Kind::IncreaseMark
        | Kind::DecreaseMark => Some(&[Wrap(Rule::Place), Here(Symbol::PlaceRest)]),
        _ => None,
    }
}

// The parts of a statement after its place.
fn place_rest(kind: Kind) -> Option<&'static [Part]>
    ensures { MatchOption result (expansion Symbol.PlaceRest kind ≡ None) (λ parts.
        expansion Symbol.PlaceRest kind ≡ Some parts.now) }
{
    match kind {
        Kind::AssignMark => Some(&[Here(Exact(Kind::AssignMark)), Here(Symbol::Assigned)]),
        Kind::AddMark => Some(&[
            Here(Exact(Kind::AddMark)),
            Here(Symbol::Expr),
            Wrap(Rule::Change),
            Here(Exact(Kind::Semicolon)),
            Wrap(Rule::Stmt),
        ]),
        Kind::SubtractMark => Some(&[
            Here(Exact(Kind::SubtractMark)),
            Here(Symbol::Expr),
            Wrap(Rule::Change),
            Here(Exact(Kind::Semicolon)),
            Wrap(Rule::Stmt),
        ]),
        Kind::IncreaseMark => Some(&[
            Here(Exact(Kind::IncreaseMark)),
            Wrap(Rule::Change),
            Here(Exact(Kind::Semicolon)),
            Wrap(Rule::Stmt),
        ]),
        Kind::DecreaseMark => Some(&[
            Here(Exact(Kind::DecreaseMark)),
            Wrap(Rule::Change),
            Here(Exact(Kind::Semicolon)),
            Wrap(Rule::Stmt),
        ]),
        _ => None,
    }
}

// The parts of a statement after its place and `=`.
fn assigned(kind: Kind) -> Option<&'static [Part]>
    ensures { MatchOption result (expansion Symbol.Assigned kind ≡ None) (λ parts.
        expansion Symbol.Assigned kind ≡ Some parts.now) }
{
    match kind {
        Kind::RecvWord => Some(&[
            Here(Exact(Kind::RecvWord)),
            Deeper(Exact(Kind::LeftParen)),
            Deeper(Exact(Kind::Name)),
            Deeper(Exact(Kind::RightParen)),
            Wrap(Rule::Value),
            Here(Exact(Kind::Semicolon)),
            WrapBack(Rule::Stmt),
        ]),
        Kind::Name => Some(&[Inside(Exact(Kind::Name)), Here(Symbol::AssignedRest)]),
        Kind::MinusMark | Kind::NotMark | Kind::LeftParen | Kind::Number => Some(&[
            Inside(Symbol::OtherUnary),
            Inside(Symbol::ExprRest),
            WrapBack(Rule::Change),
            Here(Exact(Kind::Semicolon)),
            WrapBack(Rule::Stmt),
        ]),
        _ => None,
    }
}

// The parts of the start of a `for`.
fn for_start(kind: Kind) -> Option<&'static [Part]>
    ensures { MatchOption result (expansion Symbol.ForStart kind ≡ None) (λ parts.
        expansion Symbol.ForStart kind ≡ Some parts.now) }
{
    match kind {
        Kind::Semicolon => Some(&[Here(Exact(Kind::Semicolon))]),
        Kind::IntWord => Some(&[
            Here(Exact(Kind::IntWord)),
            Here(Exact(Kind::Name)),
            Here(Exact(Kind::AssignMark)),
            Here(Symbol::Expr),
            Here(Exact(Kind::Semicolon)),
        ]),
        Kind::Name => Some(&[Here(Symbol::Change), Here(Exact(Kind::Semicolon))]),
        _ => None,
    }
}

/// The parts that stand for a symbol where a token of this kind is next, or none where no program goes on so.
pub fn production(symbol: Symbol, kind: Kind) -> Option<&'static [Part]>
    ensures { MatchOption result (expansion symbol kind ≡ None) (λ parts. expansion symbol kind ≡ Some parts.now) }
{
    match symbol {
        Symbol::Exact(_) | Symbol::Operator(_) => None,
        Symbol::Source => Some(&[Here(Symbol::Items), Wrap(Rule::Source)]),
        Symbol::Items => items(kind),
        Symbol::Shared => match kind {
            Kind::SharedWord => Some(&[
                Here(Exact(Kind::SharedWord)),
                Here(Exact(Kind::IntWord)),
                Here(Symbol::SharedItem),
                Here(Symbol::SharedItems),
                Wrap(Rule::Shared),
            ]),
            _ => None,
        },
        Symbol::SharedItems => match kind {
            Kind::Semicolon => Some(&[Here(Exact(Kind::Semicolon))]),
            Kind::Comma => Some(&[
                Here(Exact(Kind::Comma)),
                Here(Symbol::SharedItem),
                Here(Symbol::SharedItems),
            ]),
            _ => None,
        },
        Symbol::SharedItem => Some(&[
            Here(Exact(Kind::Name)),
            Here(Symbol::SharedStart),
            Wrap(Rule::Sitem),
        ]),
        Symbol::SharedStart => match kind {
            Kind::AssignMark => Some(&[Here(Exact(Kind::AssignMark)), Here(Symbol::StartValue)]),
            Kind::LeftBracket => Some(&[
                Deeper(Exact(Kind::LeftBracket)),
                Deeper(Exact(Kind::Number)),
                Deeper(Exact(Kind::RightBracket)),
            ]),
            _ => Some(&[]),
        },
        Symbol::StartValue => match kind {
            Kind::Number => Some(&[Here(Exact(Kind::Number))]),
            Kind::MinusMark => Some(&[Here(Exact(Kind::MinusMark)), Here(Exact(Kind::Number))]),
            _ => None,
        },
        Symbol::Sems => match kind {
            Kind::SemWord => Some(&[
                Here(Exact(Kind::SemWord)),
                Here(Exact(Kind::Name)),
                Here(Symbol::SemStart),
                Here(Symbol::SemItems),
                Wrap(Rule::Sems),
            ]),
            _ => None,
        },
        Symbol::SemStart => match kind {
            Kind::AssignMark => Some(&[Here(Exact(Kind::AssignMark)), Here(Exact(Kind::Number))]),
            _ => Some(&[]),
        },
        Symbol::SemItems => match kind {
            Kind::Semicolon => Some(&[Here(Exact(Kind::Semicolon))]),
            Kind::Comma => Some(&[
                Here(Exact(Kind::Comma)),
                Here(Exact(Kind::Name)),
                Here(Symbol::SemStart),
                Here(Symbol::SemItems),
            ]),
            _ => None,
        },
        Symbol::Chans => match kind {
            Kind::ChanWord => Some(&[
                Here(Exact(Kind::ChanWord)),
                Here(Exact(Kind::Name)),
                Deeper(Exact(Kind::LeftBracket)),
                Deeper(Exact(Kind::Number)),
                Deeper(Exact(Kind::RightBracket)),
                Here(Symbol::ChanItems),
                Wrap(Rule::Chans),
            ]),
            _ => None,
        },
        Symbol::ChanItems => match kind {
            Kind::Semicolon => Some(&[Here(Exact(Kind::Semicolon))]),
            Kind::Comma => Some(&[
                Here(Exact(Kind::Comma)),
                Here(Exact(Kind::Name)),
                Deeper(Exact(Kind::LeftBracket)),
                Deeper(Exact(Kind::Number)),
                Deeper(Exact(Kind::RightBracket)),
                Here(Symbol::ChanItems),
            ]),
            _ => None,
        },
        Symbol::Function => function(kind),
        Symbol::ParamsEnd => match kind {
            Kind::RightParen => Some(&[Here(Exact(Kind::RightParen))]),
            Kind::IntWord | Kind::VoidWord => Some(&[
                Here(Symbol::Params),
                Here(Exact(Kind::RightParen)),
            ]),
            _ => None,
        },
        Symbol::Params => match kind {
            Kind::VoidWord => Some(&[Here(Exact(Kind::VoidWord)), Wrap(Rule::Params)]),
            Kind::IntWord => Some(&[
                Here(Exact(Kind::IntWord)),
                Here(Exact(Kind::Name)),
                Here(Symbol::ParamItems),
                Wrap(Rule::Params),
            ]),
            _ => None,
        },
        Symbol::ParamItems => match kind {
            Kind::Comma => Some(&[
                Here(Exact(Kind::Comma)),
                Here(Exact(Kind::IntWord)),
                Here(Exact(Kind::Name)),
                Here(Symbol::ParamItems),
            ]),
            _ => Some(&[]),
        },
        Symbol::Process => match kind {
            Kind::ProcessWord => Some(&[
                Here(Exact(Kind::ProcessWord)),
                Here(Exact(Kind::Name)),
                Here(Symbol::Block),
                Wrap(Rule::Process),
            ]),
            _ => None,
        },
        Symbol::Block => match kind {
            Kind::LeftBrace => Some(&[
                Deeper(Exact(Kind::LeftBrace)),
                Deeper(Symbol::Stmts),
                Wrap(Rule::Block),
            ]),
            _ => None,
        },
        Symbol::Stmts => stmts(kind),
        Symbol::Local => match kind {
            Kind::IntWord => Some(&[
                Here(Exact(Kind::IntWord)),
                Here(Symbol::LocalItem),
                Here(Symbol::LocalItems),
                Wrap(Rule::Local),
            ]),
            _ => None,
        },
        Symbol::LocalItems => match kind {
            Kind::Semicolon => Some(&[Here(Exact(Kind::Semicolon))]),
            Kind::Comma => Some(&[
                Here(Exact(Kind::Comma)),
                Here(Symbol::LocalItem),
                Here(Symbol::LocalItems),
            ]),
            _ => None,
        },
        Symbol::LocalItem => Some(&[
            Here(Exact(Kind::Name)),
            Here(Symbol::LocalStart),
            Wrap(Rule::Litem),
        ]),
        Symbol::LocalStart => match kind {
            Kind::AssignMark => Some(&[Here(Exact(Kind::AssignMark)), Here(Symbol::Value)]),
            Kind::LeftBracket => Some(&[
                Deeper(Exact(Kind::LeftBracket)),
                Deeper(Exact(Kind::Number)),
                Deeper(Exact(Kind::RightBracket)),
            ]),
            _ => Some(&[]),
        },
        Symbol::Value => value(kind),
        Symbol::CallOrExpr => call_or_expr(kind),
        Symbol::NamedRest => match kind {
            Kind::LeftParen => Some(&[
                Deeper(Exact(Kind::LeftParen)),
                Deeper(Symbol::Args),
                Wrap(Rule::Call),
            ]),
            _ => Some(&[
                Inside(Symbol::PlaceEnd),
                Wrap(Rule::Place),
                Wrap(Rule::Unary),
                Inside(Symbol::ExprRest),
            ]),
        },
        Symbol::Args => match kind {
            Kind::RightParen => Some(&[Here(Exact(Kind::RightParen))]),
            Kind::MinusMark | Kind::NotMark | Kind::LeftParen | Kind::Number | Kind::Name => Some(&[
                Here(Symbol::Expr),
                Here(Symbol::ArgsMore),
            ]),
            _ => None,
        },
        Symbol::ArgsMore => match kind {
            Kind::RightParen => Some(&[Here(Exact(Kind::RightParen))]),
            Kind::Comma => Some(&[
                Here(Exact(Kind::Comma)),
                Here(Symbol::Expr),
                Here(Symbol::ArgsMore),
            ]),
            _ => None,
        },
        Symbol::Place => match kind {
            Kind::Name => Some(&[
                Here(Exact(Kind::Name)),
                Here(Symbol::PlaceEnd),
                Wrap(Rule::Place),
            ]),
            _ => None,
        },
        Symbol::PlaceEnd => match kind {
            Kind::LeftBracket => Some(&[
                Deeper(Exact(Kind::LeftBracket)),
                Deeper(Symbol::Expr),
                Deeper(Exact(Kind::RightBracket)),
            ]),
            _ => Some(&[]),
        },
        Symbol::Change => match kind {
            Kind::Name => Some(&[
                Here(Symbol::Place),
                Here(Symbol::ChangeEnd),
                Wrap(Rule::Change),
            ]),
            _ => None,
        },
        Symbol::ChangeEnd => change_end(kind),
        Symbol::Expr => match kind {
            Kind::MinusMark | Kind::NotMark | Kind::LeftParen | Kind::Number | Kind::Name => Some(&[
                Inside(Symbol::Unary),
                Inside(Symbol::ExprRest),
            ]),
            _ => None,
        },
        Symbol::ExprRest => Some(&[
            Here(Symbol::Chain(Level::Product)),
            Here(Symbol::Chain(Level::Sum)),
            Here(Symbol::Chain(Level::Compare)),
            Here(Symbol::Chain(Level::Equal)),
            Here(Symbol::Chain(Level::And)),
            Here(Symbol::Chain(Level::Or)),
        ]),
        Symbol::Unary => match kind {
            Kind::Name => Some(&[Here(Symbol::Place), Wrap(Rule::Unary)]),
            Kind::MinusMark | Kind::NotMark | Kind::LeftParen | Kind::Number => Some(&[Here(
                Symbol::OtherUnary,
            )]),
            _ => None,
        },
        Symbol::OtherUnary => other_unary(kind),
        Symbol::Stmt => stmt(kind),
        Symbol::StmtRest => stmt_rest(kind),
        Symbol::PlaceRest => place_rest(kind),
        Symbol::Assigned => assigned(kind),
        Symbol::AssignedRest => match kind {
            Kind::LeftParen => Some(&[
                Deeper(Exact(Kind::LeftParen)),
                Deeper(Symbol::Args),
                Wrap(Rule::Call),
                Wrap(Rule::Value),
                Here(Exact(Kind::Semicolon)),
                WrapBack(Rule::Stmt),
            ]),
            _ => Some(&[
                Inside(Symbol::PlaceEnd),
                Wrap(Rule::Place),
                Wrap(Rule::Unary),
                Inside(Symbol::ExprRest),
                WrapBack(Rule::Change),
                Here(Exact(Kind::Semicolon)),
                WrapBack(Rule::Stmt),
            ]),
        },
        Symbol::ElsePart => match kind {
            Kind::ElseWord => Some(&[Here(Exact(Kind::ElseWord)), Deeper(Symbol::Stmt)]),
            _ => Some(&[]),
        },
        Symbol::ForStart => for_start(kind),
        Symbol::ForTest => match kind {
            Kind::Semicolon => Some(&[Here(Exact(Kind::Semicolon))]),
            Kind::MinusMark | Kind::NotMark | Kind::LeftParen | Kind::Number | Kind::Name => Some(&[
                Here(Symbol::Expr),
                Here(Exact(Kind::Semicolon)),
            ]),
            _ => None,
        },
        Symbol::ForStep => match kind {
            Kind::RightParen => Some(&[Here(Exact(Kind::RightParen))]),
            Kind::Name => Some(&[Here(Symbol::Change), Here(Exact(Kind::RightParen))]),
            _ => None,
        },
        Symbol::ReturnEnd => match kind {
            Kind::Semicolon => Some(&[Here(Exact(Kind::Semicolon))]),
            Kind::MinusMark | Kind::NotMark | Kind::LeftParen | Kind::Number | Kind::Name => Some(&[
                Here(Symbol::CallOrExpr),
                Here(Exact(Kind::Semicolon)),
            ]),
            _ => None,
        },
        Symbol::Operand(level) => Some(operand(level)),
        Symbol::Chain(level) => {
            if is_operator(level, kind) {
                Some(chain(level))
            } else {
                Some(&[])
            }
        }
    }
}
