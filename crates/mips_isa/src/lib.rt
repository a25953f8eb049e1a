//! The instruction words of MIPS32, release 1, integer: what each word means, and how it is spelled
//! as a word.
#![tactic(auto)]

mod codes;
mod decoding;
mod encoding;
mod fields;
mod fits;
mod instr;
mod kinds;
pub mod laws;
mod names;
mod prediction;
mod targets;
mod words;

pub use instr::{
    AccOp, Branch1Op, Branch2Op, CountOp, HiLoOp, ImmOp, Instr, JumpOp, Kind, LoadOp, R3Op,
    ShiftOp, StopOp, StoreOp, TrapIfOp,
};
pub use kinds::kind;
pub use names::{
    LINK, PAIR, branch_links, is_partial_load, jump_links, may_keep, moves_from_pair, reads, writes,
};
pub use prediction::{is_predicted_taken, single_edge};
pub use targets::{branch_target, jump_target};
pub use words::{decode, encode};
