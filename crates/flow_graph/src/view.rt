// A graph, and what is read of it.
ghost use Rattle.std.specs.Prelude.{◌≡◌, ◌<◌, [], OnErr, OnOk, length, slice_index_or};
ghost use Rattle.flow_graph.specs.Flow.{IsWithBlocks};

use crate::blocks::more_starts;
use crate::{Edge, Unit};
use std::alloc::{AllocError, Global};
use std::marker::Model;

/// Where the units of a function lie among addresses.
#[derive(Clone, Copy, Debug)]
pub(crate) struct Place {
    pub(crate) start: usize,
    pub(crate) end: usize,
}

/// The units of code, the edges between them, its functions and its blocks.
#[derive(Debug, Drop)]
pub struct Graph {
    pub(crate) entry: u32,
    pub(crate) units: Vec<Unit>,
    pub(crate) edges: Vec<Edge>,
    pub(crate) functions: Vec<u32>,
    // the units of each function, those of one function after those of another
    pub(crate) addresses: Vec<u32>,
    pub(crate) places: Vec<Place>,
    pub(crate) blocks: Vec<u32>,
}

impl Model for Graph {
    ghost use Rattle.flow_graph.specs.Flow.{Flow};

    ghost Value = { Flow };

    ghost use Rattle.flow_graph.specs.Held.{flow_of, IsHeld};

    ghost view = { flow_of };

    ghost invariant = { IsHeld };
}

impl Graph {
    /// The address where a job begins.
    pub fn entry(&self) -> u32
        ensures { result ≡ self.now.entry }
    {
        self.entry
    }

    /// The units, by rising address.
    pub fn units(&self) -> &[Unit]
        ensures { result.now ≡ self.now.units }
    {
        self.units.as_slice()
    }

    /// The edges by their two addresses; of two edges between the same units the one whose kind stands first in `EdgeKind`.
    pub fn edges(&self) -> &[Edge]
        ensures { result.now ≡ self.now.edges }
    {
        self.edges.as_slice()
    }

    /// The functions by rising first address: the entry, and each target of a call.
    pub fn functions(&self) -> &[u32]
        ensures { result.now ≡ self.now.functions }
    {
        self.functions.as_slice()
    }

    /// The units of function number `f`, counted from 0, by rising address. A unit may belong to several functions.
    pub fn function_units(&self, f: usize) -> &[u32]
        requires { f < length self.now.functions }
        ensures { result.now ≡ slice_index_or self.now.function_units f [] }
    {
        let place = self.places[f];
        &self.addresses[place.start..place.end]
    }

    /// Where blocks begin, by rising address.
    pub fn blocks(&self) -> &[u32]
        ensures { result.now ≡ self.now.blocks }
    {
        self.blocks.as_slice()
    }

    /// Makes blocks begin also at those of `extra` that are units. Where memory is wanting, nothing changes.
    pub fn graph_blocks(&mut self, alloc: Global, extra: &[u32]) -> Result<(), AllocError>
        ensures ok { OnOk result (IsWithBlocks self.old extra.now self.new) }
        ensures err { OnErr result (self.new ≡ self.old) }
    {
        self.blocks = more_starts(alloc, &self.units, &self.blocks, extra)?;
        Ok(())
    }
}
