// What a node says as an expression.
ghost use Rattle.std.specs.Prelude.{◌≡◌, ◌+◌, ◌<◌, ◌≤◌, length};
ghost use Rattle.ppd_check_names.specs.Nodes.{phrase_of, below};
ghost use Rattle.ppd_parse.specs.declared.symbol.Rule.TheVariants as R;
ghost use Rattle.ppd_check_names.specs.Reading.{as_formula, unary, joined, kind, phrase, formula_at, goal_formula, made, as_goal};
ghost use Rattle.ppd_check_stmts.specs.Forms.{operator_of, form_formula, ArePartsAfter, form_nodes};
ghost use Rattle.ppd_check_names.specs.Cost.{plain_at, nested_below, plain_below};

use ppd_ast::Op;
use ppd_check_names::{Label, Operand, Source, kind_at, label_at, operand_at, rule_of, value_at};
use ppd_parse::{Kind, Rule};

// An operator between two operands.
#[derive(Clone, Copy)]
pub enum Operator {
    Either,
    Both,
    Two(Op),
}

// An expression and its parts.
#[derive(Clone, Copy)]
pub enum Form<'a> {
    Number(i64),
    Variable(Label<'a>),
    Element(Label<'a>, Operand),
    Negated(Operand),
    Inverted(Operand),
    Inside(Operand),
    Joined(Operator, Operand, Operand),
}

// The operator of a mark; of any other token a remainder.
fn operator_of(kind: Kind) -> Operator
    ensures { result ≡ operator_of kind }
{
    match kind {
        Kind::OrMark => Operator::Either,
        Kind::AndMark => Operator::Both,
        Kind::EqualMark => Operator::Two(Op::Eq),
        Kind::UnequalMark => Operator::Two(Op::Ne),
        Kind::AtMostMark => Operator::Two(Op::Le),
        Kind::AtLeastMark => Operator::Two(Op::Ge),
        Kind::LessMark => Operator::Two(Op::Lt),
        Kind::MoreMark => Operator::Two(Op::Gt),
        Kind::PlusMark => Operator::Two(Op::Add),
        Kind::MinusMark => Operator::Two(Op::Sub),
        Kind::StarMark => Operator::Two(Op::Mul),
        Kind::SlashMark => Operator::Two(Op::Div),
        _ => Operator::Two(Op::Rem),
    }
}

// A number, an expression in parentheses, or a sign with its operand.
fn unary_form<'a>(source: Source<'a>, id: u32) -> Form<'a>
    requires within { id < length source.nodes.now }
    ensures formula { form_formula source.entry.nodes.now result ≡ unary (below source.entry id) }
    ensures parts { ArePartsAfter source.entry.nodes.now id result }
    ensures nodes { form_nodes source.entry.nodes.now result ≤ 1 + plain_below source.entry.nodes.now id +
        nested_below source.entry.nodes.now id }
{
    match kind_at(source, id, 0) {
        Kind::LeftParen => Form::Inside(operand_at(source, id, 1)),
        Kind::MinusMark => Form::Negated(operand_at(source, id, 1)),
        Kind::NotMark => Form::Inverted(operand_at(source, id, 1)),
        Kind::Number => Form::Number(value_at(source, id, 0)),
        _ => Form::Inside(operand_at(source, id, 0)),
    }
}

// A variable, or an element of one.
fn place_form<'a>(source: Source<'a>, id: u32) -> Form<'a>
    requires within { id < length source.nodes.now }
    ensures formula { form_formula source.entry.nodes.now result ≡ goal_formula (as_goal (made R.Place
        (below source.entry id))) }
    ensures parts { ArePartsAfter source.entry.nodes.now id result }
    ensures nodes { form_nodes source.entry.nodes.now result ≤ 1 + plain_below source.entry.nodes.now id +
        nested_below source.entry.nodes.now id }
{
    let name = label_at(source, id, 0);
    match kind_at(source, id, 1) {
        Kind::LeftBracket => Form::Element(name, operand_at(source, id, 2)),
        _ => Form::Variable(name),
    }
}

// Two operands.
fn binary_form<'a>(source: Source<'a>, id: u32) -> Form<'a>
    requires within { id < length source.nodes.now }
    ensures formula { form_formula source.entry.nodes.now result ≡ joined (kind (phrase (below source.entry id) 1))
        (formula_at (below source.entry id) 0) (formula_at (below source.entry id) 2) }
    ensures parts { ArePartsAfter source.entry.nodes.now id result }
    ensures nodes { form_nodes source.entry.nodes.now result ≤ 1 + plain_below source.entry.nodes.now id +
        nested_below source.entry.nodes.now id }
{
    Form::Joined(
        operator_of(kind_at(source, id, 1)),
        operand_at(source, id, 0),
        operand_at(source, id, 2),
    )
}

// What the node says as an expression; what is none counts as 0.
pub fn form_at<'a>(source: Source<'a>, id: u32) -> Form<'a>
    requires within { id < length source.nodes.now }
    ensures formula { form_formula source.entry.nodes.now result ≡ as_formula (phrase_of source.entry.nodes.now id) }
    ensures parts { ArePartsAfter source.entry.nodes.now id result }
    ensures nodes { form_nodes source.entry.nodes.now result ≤ plain_at source.entry.nodes.now id }
{
    match rule_of(source, id) {
        Rule::Unary => unary_form(source, id),
        Rule::Place => place_form(source, id),
        Rule::Binary => binary_form(source, id),
        _ => Form::Number(0),
    }
}
