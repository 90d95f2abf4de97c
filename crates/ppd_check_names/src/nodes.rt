// What the nodes of a table say, by their numbers. Child numbers count from 0; a child that is missing says nothing.
ghost use Rattle.std.specs.Prelude.{◌≡◌, ◌+◌, ◌<◌, ◌≤◌, length, MatchOption, IfSome, slice_get};
ghost use Rattle.std.specs.List.{All};
ghost use Rattle.ppd_check_names.specs.Nodes.{phrase_of, children_of, SaysBy, label_name, operand_formula, IsOperand, IsAfter, below};
ghost use Rattle.ppd_check_names.specs.Cost.{nested_at, plain_at, nested_by, plain_by, if_there, nested_child, plain_child, nested_below, plain_below, operand_nodes};
ghost use Rattle.ppd_check_names.specs.Reading.{phrase, token, as_token, nowhere, kind, value_of, formula_at, place_at, name_at, name_of, number_at};

use crate::level::Source;
use ppd_ast::Place;
use ppd_parse::{Kind, Rule, Token, TokenKind, kind_of};

/// Where an expression stands, or a constant that is none of the source's.
#[derive(Clone, Copy)]
pub enum Operand {
    Constant(i64),
    At(u32),
}

/// A name and its place.
#[derive(Clone, Copy)]
pub struct Label<'a> {
    pub text: &'a [u8],
    pub place: Place,
}

/// A number without its sign, and its place.
#[derive(Clone, Copy)]
pub struct Number {
    pub value: u64,
    pub place: Place,
}

/// The numbers of a node's children.
pub fn children_of(source: Source<'_>, id: u32) -> &[u32]
    requires within { id < length source.nodes.now }
    ensures children { result.now ≡ children_of source.entry.nodes.now id }
    ensures inside { All (λ c. (id < c) × (c < length source.entry.nodes.now)) result.now }
    ensures few { length result.now ≤ plain_below source.entry.nodes.now id + nested_below source.entry.nodes.now id }
{
    source.nodes[id as usize].children.as_slice()
}

// The number of the child.
fn child_id(source: Source<'_>, id: u32, k: usize) -> Option<u32>
    requires within { id < length source.nodes.now }
    ensures child { result ≡ slice_get (children_of source.entry.nodes.now id) k }
    ensures within { IfSome result (λ c. c < length source.entry.nodes.now) }
    ensures after { IfSome result (λ c. id < c) }
{
    source.nodes[id as usize]
        .children
        .as_slice()
        .get(k)
        .copied()
}

/// The number of the child, and what it says.
pub fn child_at(source: Source<'_>, id: u32, k: usize) -> Option<u32>
    requires within { id < length source.nodes.now }
    ensures child { result ≡ slice_get (children_of source.entry.nodes.now id) k }
    ensures within { IfSome result (λ c. c < length source.entry.nodes.now) }
    ensures after { IfSome result (λ c. id < c) }
    ensures plain { if_there (plain_at source.entry.nodes.now) result ≡ plain_child source.entry.nodes.now id k }
    ensures nested { if_there (nested_at source.entry.nodes.now) result ≡ nested_child source.entry.nodes.now id k }
    ensures plain_few { plain_child source.entry.nodes.now id k ≤ plain_below source.entry.nodes.now id }
    ensures nested_few { nested_child source.entry.nodes.now id k ≤ nested_below source.entry.nodes.now id }
    ensures said { MatchOption result (phrase (below source.entry id) k ≡ token nowhere) (λ c. phrase
        (below source.entry id) k ≡ phrase_of source.entry.nodes.now c) }
{
    child_id(source, id, k)
}

/// The rule of a node, `Leaf` for a token.
pub fn rule_of(source: Source<'_>, id: u32) -> Rule
    requires within { id < length source.nodes.now }
    ensures said { SaysBy result (below source.entry id) (phrase_of source.entry.nodes.now id) }
    ensures plain { plain_at source.entry.nodes.now id ≡ plain_by result (1 + plain_below source.entry.nodes.now id
        + nested_below source.entry.nodes.now id) }
    ensures nested { nested_at source.entry.nodes.now id
        ≡ nested_by result (1 + plain_below source.entry.nodes.now id + nested_below source.entry.nodes.now id) }
{
    source.nodes[id as usize].rule
}

// The child's token; none where it is none, or missing.
fn token_at(source: Source<'_>, id: u32, k: usize) -> Option<&Token>
    requires within { id < length source.nodes.now }
    ensures { MatchOption result (as_token (phrase (below source.entry id) k) ≡ nowhere) (λ t. as_token (phrase
        (below source.entry id) k) ≡ t.now) }
{
    match child_at(source, id, k) {
        Some(child) => source.nodes[child as usize].token.as_ref(),
        None => None,
    }
}

/// What the child is to the grammar, where it is a token.
pub fn kind_at(source: Source<'_>, id: u32, k: usize) -> Kind
    requires within { id < length source.nodes.now }
    ensures { result ≡ kind (phrase (below source.entry id) k) }
{
    match token_at(source, id, k) {
        Some(token) => kind_of(&token.kind),
        None => Kind::End,
    }
}

/// The child's place, where it is a token.
pub fn place_at(source: Source<'_>, id: u32, k: usize) -> Place
    requires within { id < length source.nodes.now }
    ensures { result ≡ place_at (below source.entry id) k }
{
    match token_at(source, id, k) {
        Some(token) => token.place,
        None => Place { line: 0, column: 0 },
    }
}

/// The child's value, where it is a number.
pub fn value_at(source: Source<'_>, id: u32, k: usize) -> i64
    requires within { id < length source.nodes.now }
    ensures { result ≡ value_of (as_token (phrase (below source.entry id) k)).kind }
{
    match token_at(source, id, k) {
        Some(token) => value_of(&token.kind),
        None => 0,
    }
}

/// The number that the child says, without its sign, and 0 where it says none.
pub fn size_at(source: Source<'_>, id: u32, k: usize) -> Number
    requires within { id < length source.nodes.now }
    ensures { result ≡ number_at (below source.entry id) k }
{
    Number {
        value: value_at(source, id, k).unsigned_abs(),
        place: place_at(source, id, k),
    }
}

/// The child's name, where it is one.
pub fn label_at(source: Source<'_>, id: u32, k: usize) -> Label<'_>
    requires within { id < length source.nodes.now }
    ensures { label_name result ≡ name_at (below source.entry id) k }
{
    match token_at(source, id, k) {
        Some(token) => Label {
            text: text_of(token),
            place: token.place,
        },
        None => Label {
            text: &[],
            place: Place { line: 0, column: 0 },
        },
    }
}

/// The child as an expression.
pub fn operand_at(source: Source<'_>, id: u32, k: usize) -> Operand
    requires within { id < length source.nodes.now }
    ensures formula { operand_formula source.entry.nodes.now result ≡ formula_at (below source.entry id) k }
    ensures within { IsOperand source.entry.nodes.now result }
    ensures after { IsAfter id result }
    ensures nodes { operand_nodes source.entry.nodes.now result ≡ plain_child source.entry.nodes.now id k }
    ensures few { operand_nodes source.entry.nodes.now result ≤ plain_below source.entry.nodes.now id }
{
    match child_at(source, id, k) {
        Some(child) => Operand::At(child),
        None => Operand::Constant(0),
    }
}

// The value of a number.
fn value_of(kind: &TokenKind) -> i64
    ensures { result ≡ value_of kind.now }
{
    match kind {
        TokenKind::Number(value) => *value,
        _ => 0,
    }
}

// The bytes of a name.
fn text_of(token: &Token) -> &[u8]
    ensures { result.now ≡ (name_of token.now).text }
{
    match &token.kind {
        TokenKind::Name(text) => text.as_slice(),
        _ => &[],
    }
}
