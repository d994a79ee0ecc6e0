//! Where the parts of an object go as they are read.

ghost use Rattle.std.specs.Prelude.{◌≡◌, [], ◌∷◌, List, OnOk, Some};
ghost use Rattle.cell_file.specs.Kept.{Adds, IsLike, is_full};

use cell_object::Same;
use std::alloc::AllocError;

/// Something that is given items, one after the other.
pub trait Keep<T> {
    /// The items of the second list were given; the first is the list that they are compared with, where
    /// they are.
    ghost holds: { Self → List T → List T → Type 0 };

    fn keep(&mut self, item: T) -> Result<(), AllocError>
        ensures { OnOk result (Adds (holds self.old) (holds self.new) (item ∷ [])) };
}

impl<T: Drop> Keep<T> for Vec<T> {
    ghost holds = { λ list aim given. list.items ≡ given };

    fn keep(&mut self, item: T) -> Result<(), AllocError> {
        self.push(item)?;
        Ok(())
    }
}

/// A list that items are compared with as they come, so that none is kept.
#[derive(Drop)]
pub struct Beside<'a, T> {
    pub list: &'a [T],
    /// How many items came, as long as each was as in the list.
    pub same: Option<usize>,
}

impl<'a, T> Beside<'a, T> {
    pub fn new(list: &'a [T]) -> Beside<'a, T>
        ensures list { result.list.now ≡ list.now }
        ensures none { result.same ≡ Some 0 }
    {
        Beside {
            list,
            same: Some(0),
        }
    }

    /// Whether the items that came are the whole list.
    pub fn is_whole(&self) -> bool
        ensures { result ≡ is_full self.now.list.now self.now.same }
    {
        match self.same {
            Some(count) => count == self.list.len(),
            None => false,
        }
    }
}

impl<'a, T: Same + Drop> Keep<T> for Beside<'a, T> {
    ghost holds = { λ beside aim given. (beside.list.now ≡ aim) × IsLike aim beside.same given };

    fn keep(&mut self, item: T) -> Result<(), AllocError> {
        self.same = match self.same {
            Some(count) if count < self.list.len() && item.is_same(&self.list[count]) => {
                Some(count + 1)
            }
            _ => None,
        };
        Ok(())
    }
}
