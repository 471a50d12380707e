/// Which number a payload stands for: the number is all that the model keeps of it.
pub trait Numbering<P> {
    /// The payload's number.
    fn number(payload: &P) -> u64;
}
