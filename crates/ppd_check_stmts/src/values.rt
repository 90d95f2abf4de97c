// Places where values are stored, and what is stored there.
ghost use Rattle.std.specs.Prelude.{◌≡◌, ◌<◌, ◌≤◌, length};
ghost use Rattle.ppd_parse.specs.declared.symbol.Rule.TheVariants as R;
ghost use Rattle.ppd_check_names.specs.Reading.{phrase, as_goal, as_value, called, made};
ghost use Rattle.ppd_check_stmts.specs.Values.{goal_said, value_said_by, IsGoal, IsValue, goal_nodes, value_nodes};
ghost use Rattle.ppd_check_names.specs.Cost.{plain_below};
ghost use Rattle.ppd_check_names.specs.Nodes.{below};

use ppd_ast::Place;
use ppd_check_names::{Label, Operand, Source, child_at, kind_at, label_at, operand_at, rule_of};
use ppd_parse::{Kind, Rule};

// A place where a value is stored: a scalar, or an element with its index.
#[derive(Clone, Copy)]
pub enum Goal<'a> {
    Scalar(Label<'a>),
    Item(Label<'a>, Operand),
}

// What is stored: the value of an expression, that of the call at a node, or what a channel gives.
#[derive(Clone, Copy)]
pub enum Value<'a> {
    Plain(Operand),
    Result(u32),
    Received(Label<'a>),
}

// The place that a node of places says.
fn goal_in<'a>(source: Source<'a>, id: u32) -> Goal<'a>
    requires within { id < length source.nodes.now }
    ensures goal { goal_said source.entry.nodes.now result ≡ as_goal (made R.Place (below source.entry id)) }
    ensures within { IsGoal source.entry.nodes.now result }
    ensures nodes { goal_nodes source.entry.nodes.now result ≤ plain_below source.entry.nodes.now id }
{
    let name = label_at(source, id, 0);
    match kind_at(source, id, 1) {
        Kind::LeftBracket => Goal::Item(name, operand_at(source, id, 2)),
        _ => Goal::Scalar(name),
    }
}

// The child as a place.
pub fn goal_at<'a>(source: Source<'a>, id: u32, k: usize) -> Goal<'a>
    requires within { id < length source.nodes.now }
    ensures goal { goal_said source.entry.nodes.now result ≡ as_goal (phrase (below source.entry id) k) }
    ensures within { IsGoal source.entry.nodes.now result }
    ensures nodes { goal_nodes source.entry.nodes.now result ≤ plain_below source.entry.nodes.now id }
{
    let nowhere = Goal::Scalar(Label {
        text: &[],
        place: Place { line: 0, column: 0 },
    });
    match child_at(source, id, k) {
        None => nowhere,
        Some(child) => match rule_of(source, child) {
            Rule::Place => goal_in(source, child),
            _ => nowhere,
        },
    }
}

// What a node says as a value that is stored.
fn value_in<'a>(source: Source<'a>, id: u32) -> Value<'a>
    requires within { id < length source.nodes.now }
    ensures value { value_said_by source.entry.nodes.now result ≡ as_value (made R.Value (below source.entry id)) }
    ensures within { IsValue source.entry.nodes.now result }
    ensures nodes { value_nodes source.entry.nodes.now result ≤ plain_below source.entry.nodes.now id }
{
    match kind_at(source, id, 0) {
        Kind::RecvWord => Value::Received(label_at(source, id, 2)),
        _ => called_at(source, id, 0),
    }
}

// The child as a call or an expression.
fn called_at<'a>(source: Source<'a>, id: u32, k: usize) -> Value<'a>
    requires within { id < length source.nodes.now }
    ensures value { value_said_by source.entry.nodes.now result ≡ called (phrase (below source.entry id) k) }
    ensures within { IsValue source.entry.nodes.now result }
    ensures nodes { value_nodes source.entry.nodes.now result ≤ plain_below source.entry.nodes.now id }
{
    match child_at(source, id, k) {
        None => Value::Plain(Operand::Constant(0)),
        Some(child) => match rule_of(source, child) {
            Rule::Call => Value::Result(child),
            _ => Value::Plain(Operand::At(child)),
        },
    }
}

// The child as a value that is stored.
pub fn value_at<'a>(source: Source<'a>, id: u32, k: usize) -> Value<'a>
    requires within { id < length source.nodes.now }
    ensures value { value_said_by source.entry.nodes.now result ≡ as_value (phrase (below source.entry id) k) }
    ensures within { IsValue source.entry.nodes.now result }
    ensures nodes { value_nodes source.entry.nodes.now result ≤ plain_below source.entry.nodes.now id }
{
    match child_at(source, id, k) {
        None => Value::Plain(Operand::Constant(0)),
        Some(child) => match rule_of(source, child) {
            Rule::Value => value_in(source, child),
            Rule::Call => Value::Result(child),
            _ => Value::Plain(Operand::At(child)),
        },
    }
}
