// The sets of a cache.
ghost use Rattle.std.specs.Prelude.{◌≡◌, ◌<◌, ◌≤◌, ◌+◌, ◌^◌, ◌∷◌, ◌++◌, [], ℕ, List, length, slice_index_or, slice_set, replicate, IfOk, OnOk, vec_len};
ghost use Rattle.cache_lru.specs.Recency.{is_among, is_recent, set_of, line_of};
ghost use Rattle.cache_lru.specs.Contents.{HoldsRecent, IsBuildable, renewed};

use crate::powers::{exponent, quotient, remainder};
use crate::row::Row;
use std::alloc::{AllocError, Global};
use std::marker::Model;
use visa_io::Shape;

/// A cache of a shape.
#[derive(Debug, Drop)]
pub(crate) struct Table {
    shape: Shape,
    set_bits: u32,
    line_bits: u32,
    rows: Vec<Row>,
}

impl Model for Table {
    ghost use Rattle.cache_lru.specs.Contents.{Contents};

    ghost Value = { Contents };

    ghost use Rattle.cache_lru.specs.Tables.{contents, IsTable};

    ghost view = { contents };

    ghost invariant = { IsTable };
}

impl Table {
    /// An empty cache.
    pub(crate) fn new(alloc: Global, shape: Shape) -> Result<Table, AllocError>
        requires { IsBuildable shape }
        ensures shape { IfOk result (λ t. t.shape ≡ shape) }
        ensures empty { IfOk result (λ t. HoldsRecent t []) }
    {
        Ok(Table {
            shape,
            set_bits: exponent(shape.sets),
            line_bits: exponent(shape.line),
            rows: empty_rows(alloc, shape.sets as usize)?,
        })
    }

    /// Makes a line the most recent one of its set, and tells whether it was there.
    pub(crate) fn touch(&mut self, line: u32) -> bool
        ensures shape { self.new.shape ≡ self.old.shape }
        ensures hit { (accesses : List ℕ) → HoldsRecent self.old accesses → result ≡ is_recent (set_of self.old.shape) self.old.shape.ways line accesses }
        ensures holds { (accesses : List ℕ) → HoldsRecent self.old accesses → HoldsRecent self.new (line ∷ accesses) }
    {
        let set = remainder(line, self.set_bits) as usize;
        renew_in(&mut self.rows, set, self.shape.ways, line)
    }

    /// The line of an address.
    pub(crate) fn line_of(&self, at: u32) -> u32
        ensures { result ≡ line_of self.now.shape at }
    {
        quotient(at, self.line_bits)
    }

    /// Empties the cache.
    pub(crate) fn flush(&mut self)
        ensures shape { self.new.shape ≡ self.old.shape }
        ensures empty { HoldsRecent self.new [] }
    {
        clear_all(&mut self.rows);
    }
}

fn empty_rows(alloc: Global, sets: usize) -> Result<Vec<Row>, AllocError>
    ensures { IfOk result (λ rows. rows.items ≡ replicate sets []) }
{
    let mut rows = Vec::with_capacity(alloc, sets)?;
    for _set in 0..sets {
        rows.push(Row::new())?;
    }
    Ok(rows)
}

fn clear_all(rows: &mut Vec<Row>)
    ensures { rows.new.items ≡ replicate (vec_len rows.old) [] }
{
    for row in rows.iter_mut() {
        row.clear();
    }
}

fn renew_in(rows: &mut Vec<Row>, set: usize, ways: u32, line: u32) -> bool
    requires set { set < length rows.old.items }
    requires ways { ways ≤ 8 }
    ensures len { length rows.new.items ≡ length rows.old.items }
    ensures hit { result ≡ is_among line (slice_index_or rows.old.items set []) }
    ensures rows { length (slice_index_or rows.old.items set []) ≤ ways →
        rows.new.items ≡ slice_set rows.old.items set (renewed ways line (slice_index_or rows.old.items set [])) }
{
    rows[set].renew(ways, line)
}
