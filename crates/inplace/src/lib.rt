// A list of at most N items, held in place: it needs no memory but its own.
#![tactic(auto)]

ghost use Rattle.std.specs.Prelude.{◌≡◌, ◌+◌, ◌<◌, ◌≤◌, [], ◌∷◌, ◌++◌, length, take, if◌then◌else◌, MatchOption, nat_lt, slice_index_or, slice_set};
ghost use Rattle.std.specs.Fn.{FnOnceReturnsAtMut};
ghost use Rattle.inplace.specs.Held.{held};

pub mod array_vec;

pub use array_vec::ArrayVec;

impl<T: Copy, const N: usize> ArrayVec<T, N> {
    // The empty list; `blank` fills the places that are not in use.
    pub fn new(blank: T) -> Self
        ensures { held result ≡ [] }
    {
        ArrayVec {
            items: [blank; N],
            len: 0,
        }
    }

    // The first N items of a slice.
    pub fn from_slice(blank: T, items: &[T]) -> Self
        ensures { held result ≡ take N items.now }
    {
        let mut list = ArrayVec::new(blank);
        for item in items {
            if !list.push(*item) {
                return list;
            }
        }
        list
    }

    // One item more at the end; false, and nothing is changed, where all N places are in use. Like the `insert` of a set, it
    // answers whether the item went in, and has no more to tell.
    pub fn push(&mut self, item: T) -> bool
        ensures value { result ≡ nat_lt (length (held self.old)) N }
        ensures after { held self.new ≡ (if result then held self.old ++ item ∷ [] else held self.old) }
    {
        let at = self.len;
        if at >= N {
            return false;
        }
        self.items[at] = item;
        self.len = at + 1;
        true
    }

    // How many items there are.
    pub fn len(&self) -> usize
        ensures { result ≡ length (held self.now) }
    {
        self.as_slice().len()
    }

    // The item at a place, where there is one.
    pub fn get(&self, at: usize) -> Option<T>
        ensures { MatchOption result (length (held self.now) ≤ at) (λ x. (at < length (held self.now)) × (x ≡ slice_index_or (held self.now) at x)) }
    {
        let items = self.as_slice();
        if at >= items.len() {
            return None;
        }
        Some(items[at])
    }

    // The item at a place, or `none` where there is none.
    pub fn get_or(&self, at: usize, none: T) -> T
        ensures { result ≡ slice_index_or (held self.now) at none }
    {
        self.get(at).unwrap_or(none)
    }

    // The list with one item replaced; as it is where there is no such place.
    pub fn with(&self, at: usize, item: T) -> Self
        ensures { held result ≡ slice_set (held self.now) at item }
    {
        let mut list = *self;
        list.set(at, item);
        list
    }

    // Puts an item in the place of another; nothing is changed where there is no such place.
    pub fn set(&mut self, place: usize, item: T)
        ensures { held self.new ≡ slice_set (held self.old) place item }
    {
        if place < self.len {
            self.items[place] = item;
        }
    }

    // Lets a closure change the item at a place, where it lies; nothing is changed where there is no such place.
    pub fn modify<F: FnOnce(&mut T)>(&mut self, at: usize, change: F)
        requires { F.IsAlwaysCallable change }
        ensures past { length (held self.old) ≤ at → held self.new ≡ held self.old }
        ensures changed { at < length (held self.old) → (was : T) × (is : T) × (was ≡ slice_index_or (held self.old) at was) × FnOnceReturnsAtMut F.FnOnce change was tt is × (held self.new ≡ slice_set (held self.old) at is) }
    {
        if at < self.len {
            change(&mut self.items[at]);
        }
    }

    // Forgets all items.
    pub fn clear(&mut self)
        ensures { held self.new ≡ [] }
    {
        self.len = 0;
    }

    // The list as a slice.
    pub fn as_slice(&self) -> &[T]
        ensures { result.now ≡ held self.now }
    {
        let all = &self.items[..];
        &all[0..self.len]
    }
}

// Two lists are equal that hold equal items, whatever lies behind them: a derive would compare that too.
impl<T: PartialEq + Copy, const N: usize> PartialEq for ArrayVec<T, N> {
    ghost use Rattle.std.specs.Cmp.Lexicographic.{pointwise};
    ghost use Rattle.std.specs.Ordering.{on};
    ghost use Rattle.std.specs.Cmp.Rules.{comparing};
    ghost use Rattle.std.proofs.Common.{rules};

    ghost eq = { on held (pointwise T.eq) };

    ghost laws = { Prim.search (comparing, rules) };

    fn eq(&self, other: &ArrayVec<T, N>) -> bool {
        self.as_slice() == other.as_slice()
    }
}
