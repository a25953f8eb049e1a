// A cache, or none.
ghost use Rattle.std.specs.Prelude.{◌≡◌, ◌∷◌, [], ℕ, List, Option, None, Some, IfOk};
ghost use Rattle.std.specs.Option.{ForSome};
ghost use Rattle.cache_lru.specs.Recency.{hits, hits_at, lines_at};
ghost use Rattle.cache_lru.specs.Contents.{IsBuildable, StandsFor, StandsForAddresses, shape_of};

use crate::table::Table;
use std::alloc::{AllocError, Global};
use std::marker::Model;
use visa_io::Shape;

/// A cache that replaces the least recently used line of a set, or none, in which nothing hits.
/// Contracts see what it keeps, and speak of it by the accesses for which it stands.
#[derive(Debug, Drop)]
pub struct Cache {
    table: Option<Table>,
}

impl Model for Cache {
    ghost use Rattle.std.specs.Prelude.{Option};
    ghost use Rattle.cache_lru.specs.Contents.{Contents};

    ghost Value = { Option Contents };

    ghost view = { λ c. c.table };
}

impl Cache {
    /// An empty cache of a shape, or none.
    pub fn new(alloc: Global, shape: Option<Shape>) -> Result<Cache, AllocError>
        requires { ForSome shape IsBuildable }
        ensures shape { IfOk result (λ cache. shape_of cache ≡ shape) }
        ensures empty { IfOk result (λ cache. StandsFor cache []) }
        ensures addresses { IfOk result (λ cache. StandsForAddresses cache []) }
    {
        let table = match shape {
            Some(shape) => Some(Table::new(alloc, shape)?),
            None => None,
        };
        Ok(Cache { table })
    }

    /// Accesses a line, by its number, and tells whether it hits. Takes no memory.
    pub fn touch(&mut self, line: u32) -> bool
        ensures hit { (accesses : List ℕ) → StandsFor self.old accesses → result ≡ hits (shape_of self.old) line accesses }
        ensures stands { (accesses : List ℕ) → StandsFor self.old accesses → StandsFor self.new (line ∷ accesses) }
        ensures shape { shape_of self.new ≡ shape_of self.old }
    {
        match &mut self.table {
            Some(table) => table.touch(line),
            None => false,
        }
    }

    /// Accesses the line of an address, and tells whether it hits. Takes no memory.
    pub fn access(&mut self, at: u32) -> bool
        ensures hit { (accesses : List ℕ) → StandsForAddresses self.old accesses → result ≡ hits_at (shape_of self.old) at accesses }
        ensures stands { (accesses : List ℕ) → StandsForAddresses self.old accesses → StandsForAddresses self.new (at ∷ accesses) }
        ensures shape { shape_of self.new ≡ shape_of self.old }
    {
        match &mut self.table {
            Some(table) => {
                let line = table.line_of(at);
                table.touch(line)
            }
            None => false,
        }
    }

    /// Empties the cache. Takes no memory.
    pub fn flush(&mut self)
        ensures empty { StandsFor self.new [] }
        ensures addresses { StandsForAddresses self.new [] }
        ensures shape { shape_of self.new ≡ shape_of self.old }
    {
        if let Some(table) = &mut self.table {
            table.flush();
        }
    }
}
