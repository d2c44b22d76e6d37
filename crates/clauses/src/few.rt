// At most so many items, kept in place: no memory is taken.
ghost use Rattle.std.specs.Prelude.{◌≡◌, ◌+◌, ◌≤◌, ◌<◌, [], ◌∷◌, ◌++◌, length, Ok, ⊤};

use crate::buffers::copy_at;
use std::alloc::AllocError;

// The first `count` of the places are the items; the others mean nothing. Contracts say `items_of` it, and it has no model:
// what can be copied would have to give its fields back, and the items have not what the other places hold.
pub struct Few<T: Copy, const N: usize> {
    count: usize,
    places: [T; N],
    ghost few: { count ≤ N },
}

impl<T: Copy, const N: usize> Clone for Few<T, N> {
    ghost is_clone = { λ x y. y ≡ x };

    ghost is_infallible = { λ _. ⊤ };

    fn clone(&self) -> Result<Few<T, N>, AllocError> {
        Ok(*self)
    }
}

impl<T: Copy, const N: usize> Copy for Few<T, N> {}

impl<T: Copy + Default, const N: usize> Few<T, N> {
    ghost use Rattle.clauses.specs.Few.{items_of};

    // No items yet.
    pub fn new() -> Few<T, N>
        ensures { items_of result ≡ [] }
    {
        Few {
            count: 0,
            places: [T::default(); N],
        }
    }
}

impl<T: Copy, const N: usize> Few<T, N> {
    ghost use Rattle.clauses.specs.Few.{items_of};

    // How many items there are.
    pub fn len(&self) -> usize
        ensures { result ≡ length (items_of self.now) }
    {
        self.as_slice().len()
    }

    // The items in order.
    pub fn as_slice(&self) -> &[T]
        ensures { result.now ≡ items_of self.now }
    {
        let places = &self.places[..];
        &places[..self.count]
    }

    // Adds an item behind the others, for which there is a place.
    pub fn push(&mut self, item: T)
        requires { length (items_of self.old) < N }
        ensures { items_of self.new ≡ items_of self.old ++ item ∷ [] }
    {
        self.places[self.count] = item;
        self.count += 1;
    }

    // Adds items behind the others, for which there are places.
    pub fn extend_from_slice(&mut self, more: &[T])
        requires { length (items_of self.old) + length more.now ≤ N }
        ensures { items_of self.new ≡ items_of self.old ++ more.now }
    {
        let end = copy_at(more, &mut self.places, self.count);
        self.count = end;
    }
}
