// The certificate of register facts.
ghost use Rattle.std.specs.Prelude.{◌≡◌, ◌<◌, IfOk, length};
ghost use Rattle.range_facts.specs.Transfer.{AreFacts};
ghost use Rattle.bound_checker.specs.Answer.{IsAnswer, IsCheck, IsProved, told_of};
ghost use Rattle.bound_checker.specs.Input.{IsInput};
ghost use Rattle.bound_checker.specs.Lines.{addresses_of, unit_addresses};
ghost use Rattle.flow_graph.specs.Flow.{IsGraph};

use crate::fault::FactFault;
use crate::gone::first_fault;
use crate::lines::table_of;
use crate::masks::Masks;
use crate::passing::masks_of;
use crate::place::Lost;
use crate::room::Room;
use flow_graph::{Graph, Unit};
use range_facts::Facts;
use std::alloc::{AllocError, Global};
use std::collections::BTreeMap;
use visa_io::{Code, FactLine};

/// Facts that hold at the starts of blocks, with what the counts of regions are checked by: the units by rising address, what
/// functions may write, and room to look for units.
#[derive(Debug, Drop)]
pub struct Proved {
    pub(crate) addresses: Vec<u32>,
    pub(crate) table: BTreeMap<u32, Facts>,
    pub(crate) masks: Masks,
    pub(crate) room: Room,
}

fn addresses_in(alloc: Global, units: &[Unit]) -> Result<Vec<u32>, AllocError>
    ensures { IfOk result (λ v. v.items ≡ unit_addresses units.now) }
{
    let mut addresses = Vec::new(alloc);
    for unit in units {
        addresses.push(unit.at)?;
    }
    Ok(addresses)
}

// All that the check needs.
fn prepared(alloc: Global, g: &Graph, code: &Code, facts: &[FactLine]) -> Result<Proved, AllocError>
    requires { IsInput code.now g.now facts.now }
    ensures { IfOk result (IsProved code.now g.now facts.now) }
{
    let addresses = addresses_in(alloc, g.units())?;
    let table = table_of(alloc, facts)?;
    let masks = masks_of(alloc, code, g, addresses.as_slice())?;
    let room = Room::new(alloc, addresses.len())?;
    Ok(Proved {
        addresses,
        table,
        masks,
        room,
    })
}

// The first place where a fact isn't kept; it takes no memory.
fn checked(p: &Proved, g: &Graph, code: &Code, facts: &[FactLine], opening: &Facts) -> Option<Lost>
    requires input { IsInput code.now g.now facts.now }
    requires proved { IsProved code.now g.now facts.now p.now }
    requires opening { AreFacts opening.now }
    ensures { IsCheck code.now g.now facts.now opening.now result }
{
    first_fault(
        code,
        g,
        facts,
        &p.table,
        &p.masks,
        p.addresses.as_slice(),
        opening,
    )
}

fn told(p: Proved, found: Option<Lost>) -> Result<Proved, FactFault>
    ensures { result ≡ told_of p found }
{
    match found {
        None => Ok(p),
        Some(t) => Err(FactFault::NotHeld {
            from: t.from,
            to: t.to,
            register: t.register,
        }),
    }
}

/// Checks that the facts at the starts of blocks are kept along each edge into one, and that the opening facts lie in those of the
/// entry. The refusal names the first edge and register, by from, to and register, where a fact isn't kept.
pub fn check_facts(
    alloc: Global,
    g: &Graph,
    code: &Code,
    facts: &[FactLine],
    opening: &Facts,
) -> Result<Proved, FactFault>
    requires input { IsInput code.now g.now facts.now }
    requires opening { AreFacts opening.now }
    ensures { IsAnswer code.now g.now facts.now opening.now result }
{
    let Ok(p) = prepared(alloc, g, code, facts) else {
        return Err(FactFault::Memory);
    };
    let found = checked(&p, g, code, facts, opening);
    told(p, found)
}
