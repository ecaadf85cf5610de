// Which lot is meant: the numbers of its table and of its vendor. They are 32 bits wide in a call and in a script, and as wide as an
// index where the lots are held.
#[derive(Clone, Copy, PartialEq, Eq)]
pub struct LotId<N> {
    pub table: N,
    pub vendor: N,
}
