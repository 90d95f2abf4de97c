ghost use Rattle.std.specs.Prelude.{◌≡◌, nat_eq};
ghost use Rattle.ppd_ast.specs.Valid.{IsValid};
ghost use Rattle.ppd_codec.specs.Recordings.{facts_of as facts_in};
ghost use Rattle.std.specs.List.{list_any};

use ppd_ast::{Chan, Program};

/// What the form of a recording takes from its source.
#[derive(Clone, Copy)]
pub(crate) struct Facts {
    /// The version that it asks for: 2 where a channel has capacity 0, else 1.
    pub version: u8,
    /// How many processes there are.
    pub processes: u8,
    /// How many shared cells there are.
    pub shared: u32,
}

fn has_rendezvous(chans: &[Chan]) -> bool
    ensures { result ≡ list_any (λ chan. nat_eq chan.capacity 0) chans.now }
{
    chans.iter().any(|chan| chan.capacity == 0)
}

fn version_of(program: &Program) -> u8
    ensures { result ≡ (facts_in program.now).version }
{
    if has_rendezvous(program.chans.as_slice()) {
        2
    } else {
        1
    }
}

/// The facts of a program.
pub(crate) fn facts_of(program: &Program) -> Facts
    requires { IsValid program.now }
    ensures { result ≡ facts_in program.now }
{
    Facts {
        version: version_of(program),
        processes: (program.bodies.len() - program.functions as usize) as u8,
        shared: program.starts.len() as u32,
    }
}
