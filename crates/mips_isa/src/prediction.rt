ghost use Rattle.std.specs.Prelude.{◌≡◌};
ghost use Rattle.mips_isa.specs.Prediction as prediction;

use crate::instr::{Branch1Op, Branch2Op, Instr};

fn single_edge2(m: Branch2Op, same: bool) -> Option<bool>
    ensures { result ≡ prediction.single_edge2 m same }
{
    match m {
        Branch2Op::Beq => same.then_some(true),
        Branch2Op::Bne => same.then_some(false),
    }
}

fn single_edge1(m: Branch1Op, zero: bool) -> Option<bool>
    ensures { result ≡ prediction.single_edge1 m zero }
{
    match m {
        Branch1Op::Blez | Branch1Op::Bgez => zero.then_some(true),
        Branch1Op::Bltz | Branch1Op::Bgtz => zero.then_some(false),
        Branch1Op::Bltzal | Branch1Op::Bgezal => None,
    }
}

fn predicted(way: Option<bool>, off: u16) -> bool
    ensures { result ≡ prediction.predicted_by way off }
{
    way.unwrap_or(off >= 0x8000)
}

/// The way of a branch that can go one way alone, `true` where it is taken: a comparison of a register with itself,
/// or of register 0 with zero. `None` for any other instruction.
#[tactic(auto, unfolding(crate::specs::Prediction::single_edge_of))]
pub fn single_edge(i: Instr) -> Option<bool>
    ensures { result ≡ prediction.single_edge_of i }
{
    match i {
        Instr::Branch2 { m, rs, rt, .. } => single_edge2(m, rs == rt),
        Instr::Branch1 { m, rs, .. } => single_edge1(m, rs == 0),
        _ => None,
    }
}

/// The static prediction, whether a branch is taken: one that can go one way alone goes it, any other one is taken
/// where it goes back. `false` for what is no branch. This project's own.
#[tactic(auto, unfolding(crate::specs::Prediction::predicted_taken_of))]
pub fn is_predicted_taken(i: Instr) -> bool
    ensures { result ≡ prediction.predicted_taken_of i }
{
    match i {
        Instr::Branch2 { m, rs, rt, off } => predicted(single_edge2(m, rs == rt), off),
        Instr::Branch1 { m, rs, off } => predicted(single_edge1(m, rs == 0), off),
        _ => false,
    }
}
