use ppd_ast::Policy;

/// How a source is run: the budget of each process, 1 to 500,000 in steps and logged values, and the
/// policy by which its blocks are chosen.
#[derive(Clone, Copy, Drop)]
pub struct Options {
    pub budget: u32,
    pub policy: Policy,
}
