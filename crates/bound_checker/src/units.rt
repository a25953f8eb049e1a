// Units and blocks by address and number.
ghost use Rattle.std.specs.Prelude.{◌≡◌, ◌<◌, ◌+◌, ◌==◌, Contains, length, slice_index, slice_index_or};
ghost use Rattle.std.specs.List.{list_any};
ghost use Rattle.std.specs.List.Sorted.{IsStrictlyIncreasing};
ghost use Rattle.flow_graph.specs.declared.parts.Unit.{Unit as FlowUnit};

use flow_graph::{Graph, Unit};

// The number of the unit at an address.
pub(crate) fn number_of(addresses: &[u32], a: u32) -> usize
    requires rise { IsStrictlyIncreasing addresses.now }
    requires among { Contains addresses.now a }
    ensures inside { result < length addresses.now }
    ensures at { slice_index addresses.now result ≡ a }
{
    match addresses.binary_search(&a) {
        Ok(i) => i,
        Err(_) => unreachable!(),
    }
}

// Whether a block starts at an address.
pub(crate) fn starts(blocks: &[u32], a: u32) -> bool
    requires { IsStrictlyIncreasing blocks.now }
    ensures { result ≡ list_any (λ b. b == a) blocks.now }
{
    match blocks.binary_search(&a) {
        Ok(_) => true,
        Err(_) => false,
    }
}

pub(crate) fn unit_at(g: &Graph, n: usize) -> Unit
    requires { n < length g.now.units }
    ensures { (d : FlowUnit) → slice_index_or g.now.units n d ≡ result }
{
    g.units()[n]
}
