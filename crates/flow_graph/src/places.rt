// The places of code: its addresses by rising address, and what stands there.
ghost use Rattle.std.specs.Prelude.{◌≡◌, IfOk, map};
ghost use Rattle.flow_graph.specs.Code.{IsCode};
ghost use Rattle.flow_graph.specs.Net.{ArePlaces};

use crate::site::{Exits, Site, sites};
use crate::table::Table;
use std::alloc::{AllocError, Global};
use visa_io::Code;

/// The addresses of code, rising, and beside each what stands there and where it leads.
#[derive(Debug, Drop)]
pub(crate) struct Places {
    pub(crate) addresses: Vec<u32>,
    pub(crate) sites: Vec<Site>,
    pub(crate) net: Vec<Exits>,
}

impl Places {
    pub(crate) fn new(alloc: Global, code: &Code) -> Result<Places, AllocError>
        requires { IsCode code.now }
        ensures { IfOk result (ArePlaces code.now) }
    {
        let table = Table::new(alloc, code)?;
        let sites = sites(alloc, &table)?;
        let net = exits_of(alloc, &sites)?;
        Ok(Places {
            addresses: table.addresses,
            sites,
            net,
        })
    }
}

fn exits_of(alloc: Global, sites: &[Site]) -> Result<Vec<Exits>, AllocError>
    ensures { IfOk result (λ net. net.items ≡ map (λ site. site.exits) sites.now) }
{
    let mut net = Vec::new(alloc);
    for site in sites {
        net.push(site.exits)?;
    }
    Ok(net)
}
