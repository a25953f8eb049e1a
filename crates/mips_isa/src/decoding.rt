//! The instruction of a word: a row for each group of instructions, and no instruction where no row
//! has the word.

ghost use Rattle.std.specs.Prelude.{◌≡◌, IfSome};
ghost use Rattle.mips_isa.specs.Encoding.{IsWordOf};
ghost use Rattle.mips_isa.specs.Fields.{fields_of};
ghost use Rattle.mips_isa.specs.Rows as rows;

use crate::codes::{self, Code};
use crate::fields::{Fields, part, split};
use crate::instr::Instr;
use crate::names::moves_from_pair;

#[tactic(auto, using(crate::proofs::Relation::read_of_word), unfolding(crate::specs::Rows::read_of))]
pub fn read(word: u32) -> Option<Instr>
    ensures { result ≡ rows.read_of word }
{
    let f = split(word);
    match usual(word, f) {
        Some(i) => Some(i),
        None => instr(f),
    }
}

// The row that the op names, tried before the others.
#[tactic(auto, using(crate::proofs::DecodedRows::found))]
fn usual(word: u32, f: Fields) -> Option<Instr>
    requires { f ≡ fields_of word }
    ensures { IfSome result (IsWordOf word) }
{
    match f.op {
        0x00 => usual_special(word, f),
        0x01 | 0x06 | 0x07 => branch1_row(f),
        0x02 | 0x03 => jump_row(f),
        0x04 | 0x05 => branch2_row(f),
        0x08..=0x0e => imm_row(f),
        0x0f => lui_row(f),
        0x1c => r3_row(f),
        0x20..=0x26 => load_row(f),
        0x28..=0x2e => store_row(f),
        _ => None,
    }
}

// The row that the function of SPECIAL names.
#[tactic(auto, using(crate::proofs::DecodedRows::found))]
fn usual_special(word: u32, f: Fields) -> Option<Instr>
    requires { f ≡ fields_of word }
    ensures { IfSome result (IsWordOf word) }
{
    match f.funct {
        0x00 | 0x02 | 0x03 => shift_row(f),
        0x08 => jr_row(f),
        0x10..=0x13 => hi_lo_row(f),
        0x18..=0x1b => acc_row(f),
        0x04..=0x2b => r3_row(f),
        _ => None,
    }
}

#[tactic(auto, unfolding(crate::specs::Rows::instr_of))]
fn instr(f: Fields) -> Option<Instr>
    ensures { result ≡ rows.instr_of f }
{
    r3_row(f)
        .or_else(|| shift_row(f))
        .or_else(|| acc_row(f))
        .or_else(|| hi_lo_row(f))
        .or_else(|| count_row(f))
        .or_else(|| imm_row(f))
        .or_else(|| lui_row(f))
        .or_else(|| load_row(f))
        .or_else(|| store_row(f))
        .or_else(|| pref_row(f))
        .or_else(|| branch2_row(f))
        .or_else(|| branch1_row(f))
        .or_else(|| jump_row(f))
        .or_else(|| jr_row(f))
        .or_else(|| jalr_row(f))
        .or_else(|| trap_if_row(f))
        .or_else(|| stop_row(f))
        .or_else(|| sync_row(f))
}

#[tactic(auto, unfolding(crate::specs::Rows::r3_row))]
fn r3_row(f: Fields) -> Option<Instr>
    ensures { result ≡ rows.r3_row f }
{
    let m = codes::r3_at(f.op, part(f))?;
    (f.sa == 0).then_some(Instr::R3 {
        m,
        rs: f.rs,
        rt: f.rt,
        rd: f.rd,
    })
}

#[tactic(auto, unfolding(crate::specs::Rows::shift_row))]
fn shift_row(f: Fields) -> Option<Instr>
    ensures { result ≡ rows.shift_row f }
{
    let m = codes::shift_at(f.op, part(f))?;
    (f.rs == 0).then_some(Instr::Shift {
        m,
        rt: f.rt,
        rd: f.rd,
        sa: f.sa,
    })
}

#[tactic(auto, unfolding(crate::specs::Rows::acc_row))]
fn acc_row(f: Fields) -> Option<Instr>
    ensures { result ≡ rows.acc_row f }
{
    let m = codes::acc_at(f.op, part(f))?;
    (f.rd == 0 && f.sa == 0).then_some(Instr::Acc {
        m,
        rs: f.rs,
        rt: f.rt,
    })
}

#[tactic(auto, unfolding(crate::specs::Rows::hi_lo_row))]
fn hi_lo_row(f: Fields) -> Option<Instr>
    ensures { result ≡ rows.hi_lo_row f }
{
    let m = codes::hi_lo_at(f.op, part(f))?;
    let unused = if moves_from_pair(m) { f.rs } else { f.rd };
    (unused == 0 && f.rt == 0 && f.sa == 0).then_some(Instr::HiLo {
        m,
        rs: f.rs,
        rd: f.rd,
    })
}

#[tactic(auto, unfolding(crate::specs::Rows::count_row))]
fn count_row(f: Fields) -> Option<Instr>
    ensures { result ≡ rows.count_row f }
{
    let m = codes::count_at(f.op, part(f))?;
    (f.rt == f.rd && f.sa == 0).then_some(Instr::Count {
        m,
        rs: f.rs,
        rd: f.rd,
    })
}

#[tactic(auto, unfolding(crate::specs::Rows::imm_row))]
fn imm_row(f: Fields) -> Option<Instr>
    ensures { result ≡ rows.imm_row f }
{
    let m = codes::imm_at(f.op, part(f))?;
    Some(Instr::Imm {
        m,
        rs: f.rs,
        rt: f.rt,
        imm: f.half,
    })
}

#[tactic(auto, unfolding(crate::specs::Rows::lui_row))]
fn lui_row(f: Fields) -> Option<Instr>
    ensures { result ≡ rows.lui_row f }
{
    (has(f, codes::LUI) && f.rs == 0).then_some(Instr::Lui {
        rt: f.rt,
        imm: f.half,
    })
}

#[tactic(auto, unfolding(crate::specs::Rows::load_row))]
fn load_row(f: Fields) -> Option<Instr>
    ensures { result ≡ rows.load_row f }
{
    let m = codes::load_at(f.op, part(f))?;
    Some(Instr::Load {
        m,
        rs: f.rs,
        rt: f.rt,
        off: f.half,
    })
}

#[tactic(auto, unfolding(crate::specs::Rows::store_row))]
fn store_row(f: Fields) -> Option<Instr>
    ensures { result ≡ rows.store_row f }
{
    let m = codes::store_at(f.op, part(f))?;
    Some(Instr::Store {
        m,
        rs: f.rs,
        rt: f.rt,
        off: f.half,
    })
}

#[tactic(auto, unfolding(crate::specs::Rows::pref_row))]
fn pref_row(f: Fields) -> Option<Instr>
    ensures { result ≡ rows.pref_row f }
{
    has(f, codes::PREF).then_some(Instr::Pref {
        rs: f.rs,
        hint: f.rt,
        off: f.half,
    })
}

#[tactic(auto, unfolding(crate::specs::Rows::branch2_row))]
fn branch2_row(f: Fields) -> Option<Instr>
    ensures { result ≡ rows.branch2_row f }
{
    let m = codes::branch2_at(f.op, part(f))?;
    Some(Instr::Branch2 {
        m,
        rs: f.rs,
        rt: f.rt,
        off: f.half,
    })
}

#[tactic(auto, unfolding(crate::specs::Rows::branch1_row))]
fn branch1_row(f: Fields) -> Option<Instr>
    ensures { result ≡ rows.branch1_row f }
{
    let m = codes::branch1_at(f.op, part(f))?;
    Some(Instr::Branch1 {
        m,
        rs: f.rs,
        off: f.half,
    })
}

#[tactic(auto, unfolding(crate::specs::Rows::jump_row))]
fn jump_row(f: Fields) -> Option<Instr>
    ensures { result ≡ rows.jump_row f }
{
    let m = codes::jump_at(f.op, part(f))?;
    Some(Instr::Jump {
        m,
        target: f.target,
    })
}

#[tactic(auto, unfolding(crate::specs::Rows::jr_row))]
fn jr_row(f: Fields) -> Option<Instr>
    ensures { result ≡ rows.jr_row f }
{
    (has(f, codes::JR) && f.rt == 0 && f.rd == 0 && f.sa == 0).then_some(Instr::Jr { rs: f.rs })
}

#[tactic(auto, unfolding(crate::specs::Rows::jalr_row))]
fn jalr_row(f: Fields) -> Option<Instr>
    ensures { result ≡ rows.jalr_row f }
{
    (has(f, codes::JALR) && f.rt == 0 && f.sa == 0).then_some(Instr::Jalr { rs: f.rs, rd: f.rd })
}

#[tactic(auto, unfolding(crate::specs::Rows::trap_if_row))]
fn trap_if_row(f: Fields) -> Option<Instr>
    ensures { result ≡ rows.trap_if_row f }
{
    let m = codes::trap_if_at(f.op, part(f))?;
    Some(Instr::TrapIf {
        m,
        rs: f.rs,
        rt: f.rt,
        code: f.trap_code,
    })
}

#[tactic(auto, unfolding(crate::specs::Rows::stop_row))]
fn stop_row(f: Fields) -> Option<Instr>
    ensures { result ≡ rows.stop_row f }
{
    let m = codes::stop_at(f.op, part(f))?;
    Some(Instr::Stop {
        m,
        code: f.stop_code,
    })
}

#[tactic(auto, unfolding(crate::specs::Rows::sync_row))]
fn sync_row(f: Fields) -> Option<Instr>
    ensures { result ≡ rows.sync_row f }
{
    (has(f, codes::SYNC) && f.rs == 0 && f.rt == 0 && f.rd == 0).then_some(Instr::Sync {
        stype: f.sa,
    })
}

/// Whether the word has the code of a group of one member.
fn has(f: Fields, code: Code) -> bool
    ensures { result ≡ rows.has code f }
{
    f.op == code.0 && part(f) == code.1
}
