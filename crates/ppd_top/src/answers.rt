use ppd_ast::Bytes;

/// What is answered: a text of lines, and the numbers of the processes that were stepped, empty but where a run under
/// the recorded synchronization is the recorded one.
#[derive(Drop)]
pub struct Answer {
    pub text: Vec<u8>,
    pub schedule: Bytes,
}
