ghost use Rattle.std.specs.Prelude.{◌≡◌, option_copied, slice_get, option_and_then};
ghost use Rattle.std.specs.Slice.{IsItemAt};
ghost use Rattle.ppd_ast.specs.Lookups.{kind_of};
ghost use Rattle.ppd_ast.specs.Numbered.{is_while, is_call, is_left};

use crate::lists::{Bytes, Ids, Nums, Seq};

/// A place in the source: a line and a column in bytes, both from 1. Places are ordered as in the source.
#[derive(Clone, Copy, PartialEq, Eq, PartialOrd, Ord)]
pub struct Place {
    pub line: u32,
    pub column: u32,
}

/// The binary operators that evaluate both operands.
#[derive(Clone, Copy)]
pub enum Op {
    Mul,
    Div,
    Rem,
    Add,
    Sub,
    Lt,
    Le,
    Gt,
    Ge,
    Eq,
    Ne,
}

/// An expression of the table. Its children are numbers of expressions, smaller than its own.
/// `Local` and `Shared` name a scalar's cell; `LocalAt` and `SharedAt` an array's cells, from
/// `base` on, with the index `at`.
#[derive(Clone, Copy)]
pub enum Expr {
    Const(i64),
    Local(u16),
    LocalAt { base: u16, len: u16, at: u32 },
    Shared(u16),
    SharedAt { base: u16, len: u16, at: u32 },
    Neg(u32),
    Not(u32),
    Two(Op, u32, u32),
    And(u32, u32),
    Or(u32, u32),
}

/// What an assignment writes.
#[derive(Clone, Copy)]
pub enum Target {
    Local(u16),
    LocalAt { base: u16, len: u16, at: u32 },
    Shared(u16),
    SharedAt { base: u16, len: u16, at: u32 },
}

/// A core statement. Lists in it are numbers of statements, arguments are numbers of expressions.
#[derive(Drop)]
pub enum Kind {
    Set(Target, u32),
    Zero {
        base: u16,
        len: u16,
    },
    If(u32, Ids, Ids),
    While(u32, Ids),
    Call {
        function: u16,
        args: Ids,
        into: Option<u16>,
    },
    Return(Option<u32>),
    P(u8),
    V(u8),
    Send(u8, u32),
    Recv(u8, u16),
    Print(u32),
    Assert(u32),
    End,
}

/// A core statement with its place, its body and the `If` or `While` in which it directly stands.
#[derive(Drop)]
pub struct Stmt {
    pub place: Place,
    pub body: u16,
    pub parent: Option<u32>,
    pub kind: Kind,
}

/// A variable: its cells begin at `base`; an array has a length, a scalar none.
#[derive(Drop)]
pub struct Var {
    pub name: Bytes,
    pub base: u16,
    pub len: Option<u16>,
}

/// A function or a process. The first `params` of `locals` are the parameters; `cells` is the
/// size of the frame; `top` lists the outermost statements; the statements are the numbers from
/// `first` to before `end`.
#[derive(Drop)]
pub struct Body {
    pub name: Bytes,
    pub process: bool,
    pub params: u16,
    pub value: bool,
    pub cells: u16,
    pub locals: Seq<Var>,
    pub top: Ids,
    pub first: u32,
    pub end: u32,
}

/// A semaphore with its initial value.
#[derive(Drop)]
pub struct Sem {
    pub name: Bytes,
    pub start: u32,
}

/// A channel with its capacity.
#[derive(Drop)]
pub struct Chan {
    pub name: Bytes,
    pub capacity: u8,
}

/// The checked program. The first `functions` bodies are the functions, the others are the
/// processes; `starts` has the start value of each shared cell.
#[derive(Drop)]
pub struct Program {
    pub exprs: Seq<Expr>,
    pub stmts: Seq<Stmt>,
    pub bodies: Seq<Body>,
    pub functions: u16,
    pub shared: Seq<Var>,
    pub starts: Nums,
    pub sems: Seq<Sem>,
    pub chans: Seq<Chan>,
}

impl Program {
    /// The statement with this number, from 0, and none past the table.
    pub fn stmt(&self, number: u32) -> Option<&Stmt>
        ensures item { IsItemAt self.now.stmts number result }
        ensures value { option_copied result ≡ slice_get self.now.stmts number }
    {
        self.stmts.get(number as usize)
    }

    /// Whether the statement with this number, from 0, is a `While`.
    pub fn is_while(&self, stmt: u32) -> bool
        ensures { result ≡ is_while (kind_of self.now stmt) }
    {
        match self.stmt(stmt) {
            Some(stmt) => stmt.kind.is_while(),
            None => false,
        }
    }

    /// The `If` or `While` in which the statement with this number, from 0, directly stands.
    pub fn parent_of(&self, stmt: u32) -> Option<u32>
        ensures { result ≡ option_and_then (λ x. x.parent) (slice_get self.now.stmts stmt) }
    {
        self.stmt(stmt)?.parent
    }

    /// The body with this number, from 0, and none past the table.
    pub fn body(&self, number: u16) -> Option<&Body>
        ensures item { IsItemAt self.now.bodies number result }
        ensures value { option_copied result ≡ slice_get self.now.bodies number }
    {
        self.bodies.get(number as usize)
    }
}

impl Kind {
    /// Whether it is a `While`.
    pub fn is_while(&self) -> bool
        ensures { result ≡ is_while self.now }
    {
        match self {
            Kind::While(_, _) => true,
            _ => false,
        }
    }

    /// Whether it is a call.
    pub fn is_call(&self) -> bool
        ensures { result ≡ is_call self.now }
    {
        match self {
            Kind::Call { .. } => true,
            _ => false,
        }
    }

    /// Whether a unit starts after it: it is a call or a synchronization.
    pub fn is_left(&self) -> bool
        ensures { result ≡ is_left self.now }
    {
        match self {
            Kind::Call { .. } | Kind::P(_) | Kind::V(_) | Kind::Send(_, _) | Kind::Recv(_, _) => {
                true
            }
            _ => false,
        }
    }
}
