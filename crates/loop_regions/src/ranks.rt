// Ranks of units that fall along ways on: sought without a proof, and tested.
ghost use Rattle.loop_regions.specs.Ranks.{falls};
ghost use Rattle.std.specs.List.{list_all};
ghost use Rattle.std.specs.Prelude.{◌≡◌, slice_index};

use crate::Way;
use std::alloc::{AllocError, Global};

fn rank_at(ranks: &[usize], u: usize) -> usize
    ensures { result ≡ slice_index ranks.now u }
{
    if u < ranks.len() { ranks[u] } else { 0 }
}

fn does_fall(w: &Way, ranks: &[usize]) -> bool
    ensures { result ≡ falls ranks.now w.now }
{
    w.back || rank_at(ranks, w.to) < rank_at(ranks, w.from)
}

/// Whether all ways on lead to lower ranks.
pub(crate) fn do_fall(ways: &[Way], ranks: &[usize]) -> bool
    ensures { result ≡ list_all (falls ranks.now) ways.now }
{
    ways.iter().all(|w| does_fall(w, ranks))
}

/// Where the ways of each unit begin, and where the last one's end.
fn starts_of(alloc: Global, ways: &[Way], units: usize) -> Result<Vec<usize>, AllocError> {
    let mut starts = Vec::new(alloc);
    let mut k = 0;
    for u in 0..units {
        starts.push(k)?;
        k = next_start(ways, u, k);
    }
    starts.push(k)?;
    Ok(starts)
}

fn next_start(ways: &[Way], u: usize, from: usize) -> usize {
    for k in from..ways.len() {
        if ways[k].from > u {
            return k;
        }
    }
    ways.len()
}

/// A search in depth: units get their ranks when all that they lead to have theirs. An opened unit stands on the stack with
/// the place where the search goes on: twice a way's number, one more for the way itself and not for what it calls.
#[derive(Drop)]
struct Search {
    ranks: Vec<usize>,
    opened: Vec<bool>,
    stack: Vec<(usize, usize)>,
    count: usize,
}

impl Search {
    fn new(alloc: Global, units: usize) -> Result<Search, AllocError> {
        let ranks = vec![in alloc; 0; units]?;
        let opened = vec![in alloc; false; units]?;
        Ok(Search {
            ranks,
            opened,
            stack: Vec::new(alloc),
            count: 0,
        })
    }

    fn is_opened(&self, u: usize) -> bool {
        match self.opened.get(u) {
            Some(is) => *is,
            None => true,
        }
    }

    fn open(&mut self, starts: &[usize], u: usize) -> Result<(), AllocError> {
        if self.is_opened(u) {
            return Ok(());
        }
        if let Some(is) = self.opened.get_mut(u) {
            *is = true;
        }
        self.stack.push((u, start_at(starts, u).saturating_mul(2)))?;
        Ok(())
    }

    /// Goes on at a unit: to what its next way calls or leads to, or gives it its rank.
    fn go_on(
        &mut self,
        ways: &[Way],
        starts: &[usize],
        u: usize,
        place: usize,
    ) -> Result<(), AllocError> {
        if place / 2 < start_at(starts, u.saturating_add(1)) {
            self.stack.push((u, place.saturating_add(1)))?;
            if let Some(next) = next_of(ways, place) {
                self.open(starts, next)?;
            }
            return Ok(());
        }
        if let Some(rank) = self.ranks.get_mut(u) {
            *rank = self.count;
        }
        self.count = self.count.saturating_add(1);
        Ok(())
    }

    fn run(&mut self, ways: &[Way], starts: &[usize], units: usize) -> Result<(), AllocError> {
        let mut root = 0;
        for _ in 0..units
            .saturating_mul(2)
            .saturating_add(ways.len().saturating_mul(2))
        {
            match self.stack.pop() {
                Some((u, place)) => self.go_on(ways, starts, u, place)?,
                None => {
                    self.open(starts, root)?;
                    root = root.saturating_add(1);
                }
            }
        }
        Ok(())
    }
}

fn start_at(starts: &[usize], u: usize) -> usize {
    match starts.get(u) {
        Some(k) => *k,
        None => 0,
    }
}

/// The unit that the search goes to from a place, if it goes to one.
fn next_of(ways: &[Way], place: usize) -> Option<usize> {
    let w = ways.get(place / 2)?;
    if place % 2 == 0 {
        return w.callee;
    }
    if w.back { None } else { Some(w.to) }
}

/// Ranks that fall along ways on and from calls to the functions called, where there are such.
pub(crate) fn ranks_of(
    alloc: Global,
    ways: &[Way],
    units: usize,
) -> Result<Vec<usize>, AllocError> {
    let starts = starts_of(alloc, ways, units)?;
    let mut search = Search::new(alloc, units)?;
    search.run(ways, starts.as_slice(), units)?;
    let Search {
        ranks,
        opened: _,
        stack: _,
        count: _,
    } = search;
    Ok(ranks)
}
