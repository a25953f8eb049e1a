// A list whose room is taken beforehand.
ghost use Rattle.std.specs.Prelude.{◌≡◌, ◌<◌, [], ◌∷◌, ◌++◌, length, IfOk, vec_len, vec_capacity};

use crate::List;
use std::alloc::{AllocError, Global};
use std::marker::Model;

/// A list that takes no memory as it grows, up to its room.
#[derive(Debug, Drop)]
pub struct Reserve<T> {
    items: Vec<T>,
}

impl<T> Model for Reserve<T> {
    ghost use Rattle.std.specs.Prelude.{vec_capacity};
    ghost use Rattle.visa_io.specs.Reserves.{Reserved};

    ghost Value = { Reserved T };

    ghost view = { λ reserve. record { items = reserve.items.items; room = vec_capacity reserve.items } };
}

impl<T: Drop> Reserve<T> {
    /// An empty list with room for so many items.
    pub fn new(alloc: Global, room: usize) -> Result<Reserve<T>, AllocError>
        ensures items { IfOk result (λ reserve. reserve.items ≡ []) }
        ensures room { IfOk result (λ reserve. reserve.room ≡ room) }
    {
        let items = Vec::with_capacity(alloc, room)?;
        Ok(Reserve { items })
    }

    /// Puts an item last. Takes no memory.
    pub fn put(&mut self, x: T)
        requires { length self.old.items < self.old.room }
        ensures items { self.new.items ≡ self.old.items ++ x ∷ [] }
        ensures room { self.new.room ≡ self.old.room }
    {
        put_last(&mut self.items, x);
    }

    /// The list. Takes no memory.
    pub fn into_list(self) -> List<T>
        ensures { result ≡ self.items }
    {
        List::from_vec(self.items)
    }
}

fn put_last<T>(items: &mut Vec<T>, x: T)
    requires { vec_len items.old < vec_capacity items.old }
    ensures items { items.new.items ≡ items.old.items ++ x ∷ [] }
    ensures capacity { vec_capacity items.new ≡ vec_capacity items.old }
{
    items.push_reserved(x);
}
