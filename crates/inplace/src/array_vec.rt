ghost use Rattle.std.specs.Prelude.{◌≡◌, ◌≤◌, length};

use std::alloc::AllocError;

// The first `len` items of the array are the list; what lies behind them means nothing.
pub struct ArrayVec<T, const N: usize> {
    pub(crate) items: [T; N],
    pub(crate) len: usize,
    ghost whole: { length items ≡ N },
    ghost fits: { len ≤ N },
}

// By hand, since a generic struct with a ghost field derives no `Clone`.
impl<T: Copy, const N: usize> Copy for ArrayVec<T, N> {}

impl<T: Copy, const N: usize> Clone for ArrayVec<T, N> {
    ghost is_clone = { λ a b. b ≡ a };

    ghost is_infallible = { λ _. Unit {0} };

    fn clone(&self) -> Result<Self, AllocError> {
        Ok(*self)
    }
}
