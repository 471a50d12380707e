/// The right to make marks on some of the two lines. Only the kind makes one.
#[derive(Clone, Copy, PartialEq, Eq, Debug)]
pub struct PairPen {
    pub(crate) ship: bool,
    pub(crate) launch: bool,
}
