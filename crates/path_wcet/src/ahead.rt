// What is ahead of each unit.
ghost use Rattle.path_wcet.specs.Known.{AreStill, IsPaid, IsRaised, IsUpTo, IsWithin, amount, called_amount, called_by, call_stop, capped, entry, entry_at as entry_of, is_this, lap, offered, offered_below, onward, over_amount, read, rooms, sum};
ghost use Rattle.path_wcet.specs.Settled.{IsRaisedBy, IsSettled, IsSwept, IsTried};
ghost use Rattle.loop_regions.specs.Walks.{holds};
ghost use Rattle.path_wcet.specs.declared.ahead.Aim.TheVariants as aim;
ghost use Rattle.std.specs.List.{All};
ghost use Rattle.std.specs.Prelude.{◌≡◌, ◌<◌, ◌≤◌, length};

use crate::lists::{LIMIT, count_at, entry_at, limited, number_at, raise_entry, read_at};
use crate::tables::laps_cost;
use flow_graph::EdgeKind;
use loop_regions::Way;
use std::marker::Model;
use visa_io::Region;

/// What paths lead to.
#[derive(Clone, Copy, Debug)]
pub(crate) enum Aim {
    /// Any unit, also of a function that is called.
    Stop,
    /// A return of the function.
    Return,
    /// The header of a region that they stay in, again.
    Lap(Region),
}

/// What is known of the units, each list by their numbers.
#[derive(Debug, Drop)]
pub(crate) struct Table {
    /// What a unit costs.
    pub(crate) units: Vec<u64>,
    /// What the edge to the next unit costs.
    pub(crate) next: Vec<u64>,
    /// What the edge to a target costs.
    pub(crate) taken: Vec<u64>,
    /// How often the region is gone round at most that begins at a unit; 0 where none does.
    pub(crate) counts: Vec<u32>,
    /// What is ahead of a return in its function: nothing.
    pub(crate) ends: Vec<Option<u64>>,
    /// The unit from which no way leads on.
    pub(crate) last: Option<usize>,
}

impl Model for Table {
    ghost use Rattle.path_wcet.specs.Known.{Table};

    ghost Value = { Table };

    ghost use Rattle.path_wcet.specs.TableView.{table_of};

    ghost view = { table_of };
}

fn is_number(o: Option<usize>, u: usize) -> bool
    ensures { result ≡ is_this o u }
{
    match o {
        Some(v) => u == v,
        None => false,
    }
}

/// What a way costs with the laps where it leads and with what is ahead there.
fn sum_of(k: Option<u64>, laps: u64, x: Option<u64>) -> Option<u64>
    requires small { IsUpTo 8000000000000000002 k }
    requires laps { laps ≤ 3000000000000000000 }
    requires ahead { IsUpTo 3000000000000000000 x }
    ensures { result ≡ sum k laps x }
{
    let Some(k) = k else {
        return None;
    };
    match x {
        Some(x) => Some((k + laps + x).min(LIMIT)),
        None => None,
    }
}

fn is_inside(r: &Region, a: u32) -> bool
    ensures { result ≡ holds r.now a }
{
    r.first <= a && a <= r.last
}

impl Table {
    pub(crate) fn unit(&self, u: usize) -> u64
        ensures is { result ≡ read self.now.units u }
        ensures within { result ≤ 1000000000000000000 }
    {
        read_at(self.units.as_slice(), u)
    }

    /// All laps but the first of the region that begins at a unit.
    pub(crate) fn laps(&self, turns: &[u64], u: usize) -> u64
        ensures is { result ≡ lap self.now turns.now u }
        ensures within { result ≤ 3000000000000000000 }
    {
        laps_cost(count_at(self.counts.as_slice(), u), number_at(turns, u))
    }

    fn next_of(&self, u: usize) -> u64
        ensures is { result ≡ read self.now.next u }
        ensures within { result ≤ 1000000000000000000 }
    {
        read_at(self.next.as_slice(), u)
    }

    fn taken_of(&self, u: usize) -> u64
        ensures is { result ≡ read self.now.taken u }
        ensures within { result ≤ 1000000000000000000 }
    {
        read_at(self.taken.as_slice(), u)
    }

    fn is_last(&self, u: usize) -> bool
        ensures { result ≡ is_this self.now.last u }
    {
        is_number(self.last, u)
    }

    fn called(&self, turns: &[u64], callee: usize, m: Option<u64>, to: usize) -> Option<u64>
        requires { IsUpTo 3000000000000000000 m }
        ensures is { result ≡ called_amount self.now turns.now m callee to }
        ensures within { IsUpTo 8000000000000000002 result }
    {
        match m {
            Some(m) => Some(self.unit(callee) + self.laps(turns, callee) + m + 2 + self.unit(to)),
            None => None,
        }
    }

    fn over(
        &self,
        turns: &[u64],
        rets: &[Option<u64>],
        callee: Option<usize>,
        to: usize,
    ) -> Option<u64>
        ensures is { result ≡ over_amount self.now turns.now rets.now callee to }
        ensures within { IsUpTo 8000000000000000002 result }
    {
        match callee {
            Some(callee) => self.called(turns, callee, entry_at(0, rets, callee), to),
            None => None,
        }
    }

    /// What a way costs with the unit that it enters, if it can be gone.
    fn amount_of(&self, turns: &[u64], rets: &[Option<u64>], w: &Way) -> Option<u64>
        ensures is { result ≡ amount self.now turns.now rets.now w.now }
        ensures within { IsUpTo 8000000000000000002 result }
    {
        if self.is_last(w.from) {
            return None;
        }
        match w.edge.kind {
            EdgeKind::Next => Some(self.next_of(w.from) + self.unit(w.to)),
            EdgeKind::Taken => Some(self.taken_of(w.from) + self.unit(w.to)),
            EdgeKind::Over => self.over(turns, rets, w.callee, w.to),
            EdgeKind::Call | EdgeKind::Return => None,
        }
    }

    fn callee_of(&self, w: &Way) -> Option<usize>
        ensures { result ≡ called_by self.now w.now w.now.edge.kind }
    {
        match w.edge.kind {
            EdgeKind::Over => { if self.is_last(w.from) { None } else { w.callee } }
            EdgeKind::Next | EdgeKind::Taken | EdgeKind::Call | EdgeKind::Return => None,
        }
    }

    /// What is ahead of the first unit of a way that doesn't lead back, along it.
    fn onward(&self, turns: &[u64], rets: &[Option<u64>], w: &Way, x: Option<u64>) -> Option<u64>
        requires { IsUpTo 3000000000000000000 x }
        ensures { result ≡ onward self.now turns.now rets.now w.now x }
    {
        if w.back {
            return None;
        }
        sum_of(self.amount_of(turns, rets, w), self.laps(turns, w.to), x)
    }

    /// The same in a region, as far as its header.
    fn round(
        &self,
        r: &Region,
        turns: &[u64],
        rets: &[Option<u64>],
        w: &Way,
        x: Option<u64>,
    ) -> Option<u64>
        requires { IsUpTo 3000000000000000000 x }
        ensures { result ≡ offered self.now (aim.Lap r.now) turns.now rets.now w.now x }
    {
        if w.edge.to == r.header {
            return limited(self.amount_of(turns, rets, w));
        }
        if is_inside(r, w.edge.to) {
            self.onward(turns, rets, w, x)
        } else {
            None
        }
    }

    fn offer(
        &self,
        to: Aim,
        turns: &[u64],
        rets: &[Option<u64>],
        w: &Way,
        x: Option<u64>,
    ) -> Option<u64>
        requires { IsUpTo 3000000000000000000 x }
        ensures { result ≡ offered self.now to turns.now rets.now w.now x }
    {
        match to {
            Aim::Stop | Aim::Return => self.onward(turns, rets, w, x),
            Aim::Lap(r) => self.round(&r, turns, rets, w, x),
        }
    }

    /// What is ahead of a call in the function that is called.
    fn stop_of_call(
        &self,
        turns: &[u64],
        callee: Option<usize>,
        base: usize,
        xs: &[Option<u64>],
    ) -> Option<u64>
        ensures { result ≡ call_stop self.now turns.now base xs.now callee }
    {
        match callee {
            Some(f) => sum_of(
                Some(self.unit(f)),
                self.laps(turns, f),
                entry_at(base, xs, f),
            ),
            None => None,
        }
    }

    fn offer_below(
        &self,
        to: Aim,
        turns: &[u64],
        w: &Way,
        base: usize,
        xs: &[Option<u64>],
    ) -> Option<u64>
        ensures { result ≡ offered_below self.now to turns.now base xs.now w.now }
    {
        match to {
            Aim::Stop => self.stop_of_call(turns, self.callee_of(w), base, xs),
            Aim::Return | Aim::Lap(_) => None,
        }
    }

    /// Raises what is ahead of a way's first unit to what the way offers.
    fn try_way(
        &self,
        to: Aim,
        turns: &[u64],
        rets: &[Option<u64>],
        w: &Way,
        base: usize,
        xs: &mut [Option<u64>],
    ) -> bool
        requires { IsWithin base (length xs.old) w.now }
        ensures { IsTried self.now to turns.now rets.now w.now base xs.old xs.new result }
    {
        let x = entry_at(base, xs, w.to);
        let along = raise_by(xs, w.from - base, self.offer(to, turns, rets, w, x));
        let below = self.offer_below(to, turns, w, base, xs);
        let called = raise_by(xs, w.from - base, below);
        along || called
    }
}

/// Raises an entry to an offer, if there is one. Says whether it did.
fn raise_by(xs: &mut [Option<u64>], u: usize, offer: Option<u64>) -> bool
    requires { u < length xs.old }
    ensures { IsRaisedBy xs.old u offer xs.new result }
{
    match offer {
        Some(v) => raise_entry(xs, u, v),
        None => false,
    }
}

/// Tries all ways once. Says whether that changed anything.
fn sweep(
    table: &Table,
    to: Aim,
    turns: &[u64],
    rets: &[Option<u64>],
    ways: &[Way],
    base: usize,
    xs: &mut [Option<u64>],
) -> bool
    requires { All (IsWithin base (length xs.old)) ways.now }
    ensures { IsSwept table.now to turns.now rets.now ways.now base xs.old xs.new result }
{
    let mut changed = false;
    for w in ways {
        if table.try_way(to, turns, rets, w, base, xs) {
            changed = true;
        }
    }
    changed
}

/// Tries all ways until nothing changes. Says whether anything did.
pub(crate) fn settle(
    table: &Table,
    to: Aim,
    turns: &[u64],
    rets: &[Option<u64>],
    ways: &[Way],
    base: usize,
    xs: &mut [Option<u64>],
) -> bool
    requires { All (IsWithin base (length xs.old)) ways.now }
    ensures { IsSettled table.now to turns.now rets.now ways.now base xs.old xs.new result }
{
    let mut changed = false;
    while sweep(table, to, turns, rets, ways, base, xs) {
        changed = true;
    }
    changed
}
