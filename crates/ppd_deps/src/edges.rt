ghost use Rattle.std.specs.Prelude.{◌≡◌, ◌↔◌, ◌<◌, length, IsTrue};
ghost use Rattle.ppd_deps.specs.Rows.{row_at};

use ppd_ast::Seq;

/// A static edge into a statement.
#[derive(Clone, Copy)]
pub enum StaticEdge {
    /// A value of the variable, by its number among the shared ones or those of the statement's
    /// body, may come from what this statement writes.
    Data { from: u32, shared: bool, var: u16 },
    /// The statement stands in no `if` and in no `while`: its control comes from the entry of its
    /// body.
    ControlEntry,
    /// The control of the statement may come from a test of this statement.
    Control(u32),
}

/// For each statement of a program, by number, the static edges into it.
#[derive(Drop)]
pub struct DepGraph {
    pub(crate) rows: Seq<Seq<StaticEdge>>,
}

impl DepGraph {
    /// Whether there is a statement with this number.
    pub fn has(&self, stmt: u32) -> bool
        ensures { IsTrue result ↔ stmt < length self.now.rows }
    {
        (stmt as usize) < self.rows.len()
    }

    /// The static edges into a statement: the data edges by source statement, shared variables
    /// before local ones, then by number; then the one from the entry; then the control edges,
    /// rising.
    pub fn edges_into(&self, stmt: u32) -> &[StaticEdge]
        requires { stmt < length self.now.rows }
        ensures { result.now ≡ row_at self.now.rows stmt }
    {
        self.rows.as_slice()[stmt as usize].as_slice()
    }
}
