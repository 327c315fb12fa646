/// A registration that ends since more came for it than it keeps: what its Cut mark says.
#[derive(Clone, Copy, Debug, PartialEq, Eq)]
pub struct Cut {
    /// Which registration it is.
    pub client: u32,
    /// How many transitions it kept in all.
    pub total: u64,
    /// How many of them were taken.
    pub taken: u64,
}
