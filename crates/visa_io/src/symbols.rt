// The symbols of an image, in the order of their file.
ghost use Rattle.std.specs.Prelude as P;
ghost use Rattle.std.specs.Prelude.{◌≡◌, ℕ, [], ◌∷◌, ◌++◌, length, not, slice_get, IfOk, OnErr, OnOk, IfSome, if◌then◌else◌, option_map};
ghost use Rattle.visa_io.specs.SymbolLists.{value_of, names};

use indexmap::IndexMap;
use std::alloc::{AllocError, Global};
use std::hash::{BuildHasher, DefaultHasher, Hasher};
use std::marker::Model;

/// Makes hashers that have read a key.
#[derive(Clone, Copy)]
struct KeyedHash {
    keyed: DefaultHasher,
}

impl BuildHasher for KeyedHash {
    type Hasher = DefaultHasher;

    ghost build_hasher = { λ hash. hash.keyed };

    fn build_hasher(&self) -> DefaultHasher {
        self.keyed
    }
}

/// Names and their values, in file order. A name is taken once.
#[derive(Debug, Drop)]
pub struct Symbols {
    map: IndexMap<Vec<u8>, u32, KeyedHash>,
}

impl Model for Symbols {
    ghost use Rattle.std.specs.Prelude as P;
    ghost use Rattle.std.specs.Prelude.{ℕ};
    ghost use Rattle.visa_io.specs.SymbolLists.{pairs_of};

    ghost Value = { P.List (P.List ℕ × ℕ) };

    ghost view = { λ symbols. pairs_of symbols.map.entries };
}

impl Symbols {
    /// No symbols, for names that nobody chose in order to make them collide. Takes no memory.
    pub fn new(alloc: Global) -> Symbols
        ensures { result ≡ [] }
    {
        Symbols::keyed(alloc, &[])
    }

    /// No symbols. Names are looked up by hashes under the key: where it depends on the names, as a digest of their file does,
    /// nobody can choose names that collide under it. Takes no memory.
    pub fn keyed(alloc: Global, key: &[u8]) -> Symbols
        ensures { result ≡ [] }
    {
        let mut keyed = DefaultHasher::new();
        keyed.write(key);
        Symbols {
            map: IndexMap::with_hasher(alloc, KeyedHash { keyed }),
        }
    }

    /// Puts a new name last. A name that is there keeps its value, and the answer is false.
    pub fn add(&mut self, name: &[u8], value: u32) -> Result<bool, AllocError>
        ensures new { IfOk result (λ added. added ≡ not (names self.old name.now)) }
        ensures ok { IfOk result (λ added. self.new ≡ (if added then self.old ++ (name.now, value) ∷ [] else self.old)) }
        ensures err { OnErr result (self.new ≡ self.old) }
    {
        if self.map.contains_key(name) {
            return Ok(false);
        }
        let alloc = *self.map.allocator();
        self.map.insert(owned(alloc, name)?, value)?;
        Ok(true)
    }

    /// How many symbols there are. Takes no memory.
    pub fn len(&self) -> usize
        ensures { result ≡ length self.now }
    {
        self.map.len()
    }

    /// The symbol with this number, from 0. Takes no memory.
    pub fn at(&self, i: usize) -> Option<(&[u8], u32)>
        ensures { option_map (λ p. (p.0.now, p.1)) result ≡ slice_get self.now i }
    {
        let (name, value) = self.map.get_index(i)?;
        Some((name.as_slice(), *value))
    }

    /// The value of a name. Takes no memory.
    pub fn get(&self, name: &[u8]) -> Option<u32>
        ensures { result ≡ value_of self.now name.now }
    {
        self.map.get(name).copied()
    }
}

fn owned(alloc: Global, name: &[u8]) -> Result<Vec<u8>, AllocError>
    ensures { IfOk result (λ key. key.items ≡ name.now) }
{
    name.to_vec(alloc)
}
