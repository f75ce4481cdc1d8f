// A list of at most so many items.
ghost use Rattle.std.specs.Prelude.{◌≡◌, ◌<◌, ◌≤◌, [], ◌∷◌, ◌++◌, length, ⊤, MatchOption, OnOk, OnErr};

use crate::blank::Blank;
use std::alloc::AllocError;
use std::marker::Model;

// A list that has no room for one more item.
#[derive(Clone, Copy, PartialEq, Eq, Debug)]
pub struct NoRoom;

// In contracts it is the list of its items. They lie at the front of an array, and blanks behind them.
#[derive(Copy)]
pub struct ShortList<T: Blank, const N: usize> {
    places: [T; N],
    len: usize,
}

impl<T: Blank, const N: usize> Model for ShortList<T, N> {
    ghost use Rattle.std.specs.Prelude.{List, length, take};
    ghost use Rattle.std.specs.Coded.{coded_list};

    ghost Value = { List T };

    ghost coded = { coded_list T.code };

    ghost use Rattle.shortlist.specs.Filling.{Filled, filled, used, gives_back};
    ghost use Rattle.std.proofs.Common.{refl};

    ghost view = { λ l. take l.len l.places };

    ghost invariant = { λ l. Filled N T.blank l.places l.len };

    ghost inverse = { λ xs. record { places = filled N T.blank xs; len = length xs } };

    ghost inverse_ok = { λ l h. rw (gives_back N T.blank l.places l.len h, used N T.blank l.places l.len h) refl };
}

// A list is copied whole; a derived clone would clone item by item.
impl<T: Blank, const N: usize> Clone for ShortList<T, N> {
    ghost is_infallible = { λ _. ⊤ };

    ghost is_clone = { λ x y. y ≡ x };

    fn clone(&self) -> Result<ShortList<T, N>, AllocError> {
        Ok(*self)
    }
}

impl<T: Blank, const N: usize> ShortList<T, N> {
    pub fn new() -> ShortList<T, N>
        ensures { result ≡ [] }
    {
        ShortList {
            places: [T::blank(); N],
            len: 0,
        }
    }

    // The items of a slice; absent where there are too many.
    pub fn from_slice(items: &[T]) -> Option<ShortList<T, N>>
        ensures { MatchOption result (N < length items.now) (λ list. (list ≡ items.now) × (length items.now ≤ N)) }
    {
        let len = items.len();
        if len > N {
            return None;
        }
        let mut places = [T::blank(); N];
        places[..len].copy_from_slice(items);
        Some(ShortList { places, len })
    }

    pub fn as_slice(&self) -> &[T]
        ensures value { result.now ≡ self.now }
        ensures few { length result.now ≤ N }
    {
        &self.places[..self.len]
    }

    pub fn len(&self) -> usize
        ensures value { result ≡ length self.now }
        ensures few { result ≤ N }
    {
        self.as_slice().len()
    }

    // One item more, if there is room.
    pub fn push(&mut self, item: T) -> Result<(), NoRoom>
        ensures room { OnOk result ((length self.old < N) × (self.new ≡ self.old ++ item ∷ [])) }
        ensures full { OnErr result ((length self.old ≡ N) × (self.new ≡ self.old)) }
    {
        if self.len == N {
            return Err(NoRoom);
        }
        self.places[self.len] = item;
        self.len += 1;
        Ok(())
    }
}
