// What stands at an address of code, and where it leads. Places are numbers among the addresses of code, by rising address.
ghost use Rattle.std.specs.Prelude.{◌≡◌, ◌<◌, IfOk, length, if◌then◌else◌};
ghost use Rattle.std.specs.List.Sorted.{IsStrictlyIncreasing};
ghost use Rattle.mips_isa.specs.Fits.{FieldsFit};
ghost use Rattle.flow_graph.specs.Places.{no_exits};
ghost use Rattle.flow_graph.specs.Sites.{AreLocated, AreSitesOf, IsLocated, IsSiteAt, IsSiteOf, SlotOf, filled, is_faulty_by, is_plain_slot, is_short, lacks, leaves_by};
ghost use Rattle.flow_graph.specs.Table.{IsIndex};

use crate::table::{Table, find};
use crate::ways::{Ways, is_indirect, is_link_branch};
use mips_isa::{Instr, kind};
use std::alloc::{AllocError, Global};

/// The places to which a unit leads, by the kind of the edge.
#[derive(Clone, Copy, Debug)]
pub(crate) struct Exits {
    pub(crate) next: Option<usize>,
    pub(crate) taken: Option<usize>,
    pub(crate) call: Option<usize>,
    pub(crate) over: Option<usize>,
}

pub(crate) const NO_EXITS: Exits = Exits {
    next: None,
    taken: None,
    call: None,
    over: None,
};

/// What stands in a delay slot.
#[derive(Clone, Copy, Debug)]
pub(crate) enum Slot {
    /// The instruction has no slot.
    Absent,
    /// Its slot is no address of code.
    OffCode,
    /// Its slot's word is reserved.
    Reserved,
    /// This instruction.
    Holds(Instr),
}

/// What would be a unit at an address of code.
#[derive(Clone, Copy, Debug)]
pub(crate) struct Site {
    pub(crate) at: u32,
    /// `None` where its word is reserved.
    pub(crate) first: Option<Instr>,
    pub(crate) slot: Slot,
    /// Whether its slot, a successor or its return point is no address of code.
    pub(crate) leaves: bool,
    /// None where it has a fault.
    pub(crate) exits: Exits,
}

/// What stands at each place.
pub(crate) fn sites(alloc: Global, table: &Table) -> Result<Vec<Site>, AllocError>
    requires { IsIndex table.now }
    ensures { IfOk result (λ sites. AreSitesOf table.now (length table.now.addresses.items) sites.items) }
{
    let mut sites = Vec::new(alloc);
    for place in 0..table.addresses.len() {
        sites.push(site_at(table, place))?;
    }
    Ok(sites)
}

fn site_at(table: &Table, place: usize) -> Site
    requires index { IsIndex table.now }
    requires within { place < length table.now.addresses.items }
    ensures { IsSiteOf table.now place result }
{
    let at = table.addresses[place];
    match table.instrs[place] {
        Some(first) => instr_site(table, at, first),
        None => Site {
            at,
            first: None,
            slot: Slot::Absent,
            leaves: false,
            exits: NO_EXITS,
        },
    }
}

fn instr_site(table: &Table, at: u32, first: Instr) -> Site
    requires index { IsIndex table.now }
    requires fits { FieldsFit first }
    ensures { IsSiteAt table.now at first result }
{
    let ways = Ways::of(first, at);
    let slot = slot_of(table, at, first);
    let exits = located(&table.addresses, ways);
    let leaves = leaves_code(slot, ways, exits);
    Site {
        at,
        first: Some(first),
        slot,
        leaves,
        exits: exits_unless(is_faulty(leaves, first, slot), exits),
    }
}

fn leaves_code(slot: Slot, ways: Ways, exits: Exits) -> bool
    ensures { result ≡ leaves_by slot ways exits }
{
    matches!(slot, Slot::OffCode) || is_short(ways, exits)
}

fn is_faulty(leaves: bool, first: Instr, slot: Slot) -> bool
    ensures { result ≡ is_faulty_by leaves first slot }
{
    leaves || is_indirect(first) || is_link_branch(first) || !is_plain(slot)
}

fn exits_unless(is_faulty: bool, exits: Exits) -> Exits
    ensures { result ≡ (if is_faulty then no_exits else exits) }
{
    if is_faulty { NO_EXITS } else { exits }
}

// What stands in the slot of an instruction.
fn slot_of(table: &Table, at: u32, first: Instr) -> Slot
    requires { IsIndex table.now }
    ensures { SlotOf table.now at first result }
{
    if !kind(first).is_control() {
        return Slot::Absent;
    }
    match find(&table.addresses, u64::from(at) + 4) {
        None => Slot::OffCode,
        Some(place) => filled(table.instrs[place]),
    }
}

fn filled(instr: Option<Instr>) -> Slot
    ensures { result ≡ filled instr }
{
    match instr {
        None => Slot::Reserved,
        Some(i) => Slot::Holds(i),
    }
}

/// Whether there is no slot, or one that holds no control instruction.
fn is_plain(slot: Slot) -> bool
    ensures { result ≡ is_plain_slot slot }
{
    match slot {
        Slot::Absent => true,
        Slot::OffCode | Slot::Reserved => false,
        Slot::Holds(i) => !kind(i).is_control(),
    }
}

// The places of addresses.
fn located(addresses: &[u32], ways: Ways) -> Exits
    requires { IsStrictlyIncreasing addresses.now }
    ensures { AreLocated addresses.now ways result }
{
    Exits {
        next: locate(addresses, ways.next),
        taken: locate(addresses, ways.taken),
        call: locate(addresses, ways.call),
        over: locate(addresses, ways.over),
    }
}

fn locate(addresses: &[u32], at: Option<u64>) -> Option<usize>
    requires { IsStrictlyIncreasing addresses.now }
    ensures { IsLocated addresses.now at result }
{
    match at {
        None => None,
        Some(at) => find(addresses, at),
    }
}

// Whether one of these addresses has no place.
fn is_short(ways: Ways, exits: Exits) -> bool
    ensures { result ≡ is_short ways exits }
{
    lacks(ways.next, exits.next)
        || lacks(ways.taken, exits.taken)
        || lacks(ways.call, exits.call)
        || lacks(ways.over, exits.over)
}

fn lacks(at: Option<u64>, place: Option<usize>) -> bool
    ensures { result ≡ lacks at place }
{
    at.is_some() && place.is_none()
}
