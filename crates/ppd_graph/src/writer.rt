/// Which of the first items of an interval wrote a local cell last.
#[derive(Clone, Copy)]
pub enum Writer {
    /// None of them, in an activation that was there before them.
    Before,
    /// None of them since the cell's activation began among them: the cell has its start value.
    Fresh,
    /// This item.
    At(u32),
    /// The last item of this interval, whose function returned the value.
    Of(u32),
}
