//! What a list holds, and changing it.
ghost use Rattle.std.specs.Prelude.{◌≡◌, ◌+◌, [], ◌∷◌, ◌++◌, length, is_ok, if◌then◌else◌, nat_le, nat_lt, slice_get, slice_set};
ghost use Rattle.std.specs.List.{insert, remove};
ghost use Rattle.array_vec.specs.Held.{held};

use crate::ArrayVec;

/// Why nothing was put into a list: it has not that much room. The list is then as it was.
#[derive(Clone, Copy, PartialEq, Eq, Debug)]
pub struct Full;

impl<T: Copy, const N: usize> ArrayVec<T, N> {
    /// With no items. The array is filled with `filler`, which is never shown: so items need no default of their own.
    pub fn new(filler: T) -> ArrayVec<T, N>
        ensures { held result ≡ [] }
    {
        ArrayVec {
            items: [filler; N],
            len: 0,
        }
    }

    /// The items, in order.
    pub fn as_slice(&self) -> &[T]
        ensures { result.now ≡ held self.now }
    {
        let items = &self.items[..];
        &items[0..self.len]
    }

    /// Puts an item behind the others.
    pub fn push(&mut self, item: T) -> Result<(), Full>
        ensures told { is_ok result ≡ nat_lt (length (held self.old)) N }
        ensures after { held self.new ≡ (if is_ok result then held self.old ++ item ∷ [] else held self.old) }
    {
        let len = self.len;
        if len >= N {
            return Err(Full);
        }
        self.items[len] = item;
        self.len = len + 1;
        Ok(())
    }

    /// Puts items behind the others: all of them, or none.
    pub fn extend(&mut self, more: &[T]) -> Result<(), Full>
        ensures told { is_ok result ≡ nat_le (length (held self.old) + length more.now) N }
        ensures after { held self.new ≡ (if is_ok result then held self.old ++ more.now else held self.old) }
    {
        if more.len() > N - self.len {
            return Err(Full);
        }
        let end = self.len + more.len();
        let items = &mut self.items[..];
        items[self.len..end].copy_from_slice(more);
        self.len = end;
        Ok(())
    }

    /// Puts an item at a place, in front of those from there on; where there is no such place, behind them all.
    #[tactic(auto, using(crate::proofs::Edits::inserted))]
    pub fn insert(&mut self, at: usize, item: T) -> Result<(), Full>
        ensures told { is_ok result ≡ nat_lt (length (held self.old)) N }
        ensures after { held self.new ≡ (if is_ok result then insert (held self.old) at item else held self.old) }
    {
        self.push(item)?;
        if at < self.len {
            let items = &mut self.items[..];
            items[at..self.len].rotate_right(1);
        }
        Ok(())
    }

    /// Takes the item at a place out, and gives it; `None` where there is no such place.
    pub fn remove(&mut self, at: usize) -> Option<T>
        ensures told { result ≡ slice_get (held self.old) at }
        ensures after { held self.new ≡ remove (held self.old) at }
    {
        let item = *self.as_slice().get(at)?;
        let items = &mut self.items[..];
        items[at..self.len].rotate_left(1);
        self.len -= 1;
        Some(item)
    }

    /// Puts an item in the place of another, and gives that one; `None` where there is no such place.
    #[tactic(auto, using(crate::proofs::Edits::take_set))]
    pub fn replace(&mut self, at: usize, item: T) -> Option<T>
        ensures told { result ≡ slice_get (held self.old) at }
        ensures after { held self.new ≡ slice_set (held self.old) at item }
    {
        let old = *self.as_slice().get(at)?;
        self.items[at] = item;
        Some(old)
    }
}
