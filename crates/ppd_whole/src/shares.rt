// How work is shared among workers.
ghost use Rattle.std.specs.Prelude.{◌<◌};

/// The least part of so many things that one worker takes, so that a list that is halved again and again makes no more
/// parts than there are workers.
pub fn share(count: usize, workers: u32) -> usize
    requires { 0 < workers }
{
    let parts = 1usize << workers.ilog2();
    if count <= parts {
        1
    } else {
        (count / parts).max(2)
    }
}
