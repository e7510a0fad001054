//! A list of at most N items that is held in place, with no memory of its own to ask for.
#![tactic(auto)]

ghost use Rattle.std.specs.Prelude.{◌≡◌, ◌≤◌, ⊤, length};

use std::alloc::AllocError;

pub mod items;

/// Up to N items in order, held in an array: those in use stand in front. It is copied where its items are, which the list of the
/// library's crate `arrayvec` is not.
#[derive(Drop)]
pub struct ArrayVec<T, const N: usize> {
    items: [T; N],
    len: usize,
    ghost whole: { length items ≡ N },
    ghost within: { len ≤ N },
}

impl<T: Copy, const N: usize> Copy for ArrayVec<T, N> {}

// Written out, since none is derived for a generic type with a ghost field.
impl<T: Copy, const N: usize> Clone for ArrayVec<T, N> {
    ghost is_clone = { λ old new. new ≡ old };

    ghost is_infallible = { λ _. ⊤ };

    fn clone(&self) -> Result<ArrayVec<T, N>, AllocError> {
        Ok(*self)
    }
}
