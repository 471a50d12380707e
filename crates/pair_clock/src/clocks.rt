/// How many marks of each line are known: those of a line have the steps 0, 1,
/// 2 and so on.
#[derive(Clone, Copy, PartialEq, Eq, Debug)]
pub struct PairClock {
    pub(crate) ship: u16,
    pub(crate) launch: u16,
}
