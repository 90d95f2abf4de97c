// The words of the grammar.

use crate::Kind;

/// A level of binary operators, the strongest first.
#[derive(Clone, Copy, Drop)]
pub enum Level {
    Product,
    Sum,
    Compare,
    Equal,
    And,
    Or,
}

/// What a node of the tree is: a token, an operator between two operands, or a left side of the grammar.
#[derive(Clone, Copy, Drop)]
pub enum Rule {
    Leaf,
    Source,
    Shared,
    Sitem,
    Sems,
    Chans,
    Function,
    Params,
    Process,
    Block,
    Local,
    Litem,
    Value,
    Call,
    Place,
    Change,
    Stmt,
    Unary,
    Binary,
}

/// A part of a program.
#[derive(Clone, Copy, Drop)]
pub enum Symbol {
    Exact(Kind),
    Operator(Level),
    Operand(Level),
    Chain(Level),
    Source,
    Items,
    Shared,
    SharedItems,
    SharedItem,
    SharedStart,
    StartValue,
    Sems,
    SemStart,
    SemItems,
    Chans,
    ChanItems,
    Function,
    ParamsEnd,
    Params,
    ParamItems,
    Process,
    Block,
    Stmts,
    Local,
    LocalItems,
    LocalItem,
    LocalStart,
    Value,
    CallOrExpr,
    NamedRest,
    Args,
    ArgsMore,
    Place,
    PlaceEnd,
    Change,
    ChangeEnd,
    Expr,
    ExprRest,
    Unary,
    OtherUnary,
    Stmt,
    StmtRest,
    PlaceRest,
    Assigned,
    AssignedRest,
    ElsePart,
    ForStart,
    ForTest,
    ForStep,
    ReturnEnd,
}

/// Where a token stands: how many constructs are open, 65 for 65 or more, and whether it is in an expression.
#[derive(Clone, Copy, Drop)]
pub struct At {
    pub depth: u8,
    pub inside: bool,
}

/// A part of a production: a symbol, in one more construct, or in an expression, or the end of a node.
#[derive(Clone, Copy, Drop)]
pub enum Part {
    Here(Symbol),
    Deeper(Symbol),
    Inside(Symbol),
    Wrap(Rule),
    WrapBack(Rule),
}

/// What is wanted next: a symbol at a place, in the construct whose trees begin at a base, or the end of a node.
#[derive(Clone, Copy, Drop)]
pub enum Want {
    Get(Symbol, At, usize),
    Close(Rule, usize),
}
