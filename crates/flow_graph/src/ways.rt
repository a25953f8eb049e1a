// Where control goes after a unit, read from its first instruction alone.
ghost use Rattle.std.specs.Prelude.{◌≡◌};
ghost use Rattle.mips_isa.specs.Fits.{FieldsFit};
ghost use Rattle.flow_graph.specs.Edges as edges;
ghost use Rattle.flow_graph.specs.Faults as faults;
ghost use Rattle.flow_graph.specs.Ways as meaning;

use mips_isa::{Branch1Op, Instr, Kind, branch_target, jump_target, kind, single_edge};

/// The addresses to which a unit leads, by the kind of the edge.
#[derive(Clone, Copy, Debug)]
pub(crate) struct Ways {
    pub(crate) next: Option<u64>,
    pub(crate) taken: Option<u64>,
    pub(crate) call: Option<u64>,
    pub(crate) over: Option<u64>,
}

pub(crate) const NO_WAYS: Ways = Ways {
    next: None,
    taken: None,
    call: None,
    over: None,
};

impl Ways {
    /// The ways of a unit at an address by its first instruction.
    #[tactic(auto, unfolding(crate::specs::Ways::ways_of))]
    pub(crate) fn of(i: Instr, at: u32) -> Ways
        requires { FieldsFit i }
        ensures { result ≡ meaning.ways_of i at }
    {
        ways_by(kind(i), single_edge(i), at, target(i, at))
    }
}

fn ways_by(kind: Kind, way: Option<bool>, at: u32, target: Option<u64>) -> Ways
    ensures { result ≡ meaning.ways_by kind way at target }
{
    match kind {
        Kind::Branch => branch_ways(way, at, target),
        Kind::Jump => Ways {
            taken: target,
            ..NO_WAYS
        },
        Kind::Call => call_ways(at, target),
        Kind::Return | Kind::Indirect | Kind::Stop => NO_WAYS,
        _ => Ways {
            next: Some(u64::from(at) + 4),
            ..NO_WAYS
        },
    }
}

fn branch_ways(way: Option<bool>, at: u32, target: Option<u64>) -> Ways
    ensures { result ≡ meaning.branch_ways way at target }
{
    let past = Some(u64::from(at) + 8);
    match way {
        None => Ways {
            next: past,
            taken: target,
            ..NO_WAYS
        },
        Some(true) => Ways {
            taken: target,
            ..NO_WAYS
        },
        Some(false) => Ways {
            next: past,
            ..NO_WAYS
        },
    }
}

fn call_ways(at: u32, target: Option<u64>) -> Ways
    ensures { result ≡ meaning.call_ways at target }
{
    match target {
        None => NO_WAYS,
        Some(function) => Ways {
            call: Some(function),
            over: Some(u64::from(at) + 8),
            ..NO_WAYS
        },
    }
}

/// The target that a branch or jump at an address names.
#[tactic(auto, unfolding(crate::specs::Edges::target_of))]
pub(crate) fn target(i: Instr, at: u32) -> Option<u64>
    requires { FieldsFit i }
    ensures { result ≡ edges.target_of i at }
{
    match i {
        Instr::Branch2 { off, .. } | Instr::Branch1 { off, .. } => {
            Some(u64::from(branch_target(at, off)))
        }
        Instr::Jump { target, .. } => Some(u64::from(jump_target(at, target))),
        _ => None,
    }
}

/// Whether a jump or call of where a register says, a return aside.
pub(crate) fn is_indirect(i: Instr) -> bool
    ensures { result ≡ faults.is_indirect i }
{
    match i {
        Instr::Jr { rs } => rs != 31,
        Instr::Jalr { .. } => true,
        _ => false,
    }
}

/// Whether a branch that links, and may not be taken.
pub(crate) fn is_link_branch(i: Instr) -> bool
    ensures { result ≡ faults.is_link_branch i }
{
    match i {
        Instr::Branch1 { m, rs, .. } => links_if(m, rs),
        _ => false,
    }
}

fn links_if(m: Branch1Op, rs: u8) -> bool
    ensures { result ≡ faults.links_if m rs }
{
    match m {
        Branch1Op::Bltzal => true,
        Branch1Op::Bgezal => rs != 0,
        _ => false,
    }
}
