// The comparisons of registers with constants, and what becomes of them.
ghost use Rattle.std.specs.Prelude.{◌≡◌, ◌≤ℤ◌, ◌<◌, ◌^◌, ◌-◌, negsuc, pos, map, IfSome};
ghost use Rattle.std.specs.Int.{cast_signed, w16};
ghost use Rattle.range_facts.specs.Along as meaning;
ghost use Rattle.range_facts.specs.Transfer.{AreFacts, fact_of};

use crate::facts::Facts;
use crate::strided::{Strided, is_constant};
use mips_isa::{ImmOp, Instr, R3Op};

/// The comparison that a register holds the answer of: whether register `of` is below the bound, both signed.
#[derive(Clone, Copy, Debug, PartialEq, Eq)]
pub struct Test {
    pub of: u8,
    pub bound: i32,
}

fn test_if(b: bool, of: u8, bound: i32) -> Option<Test>
    ensures { result ≡ meaning.test_if b of bound }
{
    if b { Some(Test { of, bound }) } else { None }
}

fn is_natural(z: i64) -> bool
    ensures { result ≡ meaning.is_natural z }
{
    0 <= z
}

// The lower end of a register's fact.
fn least(f: &Facts, r: u8) -> i32
    requires { AreFacts f.now }
    ensures { result ≡ (fact_of f.now r).lo }
{
    f.fact(r).lo as i32
}

fn r3_test(m: R3Op, rs: u8, rt: u8, f: &Facts) -> Option<Test>
    requires { AreFacts f.now }
    ensures { result ≡ meaning.r3_test m rs rt f.now }
{
    let bound = least(f, rt);
    match m {
        R3Op::Slt => test_if(is_constant(f.fact(rt)), rs, bound),
        R3Op::Sltu => test_if(
            is_constant(f.fact(rt)) && bound >= 0 && least(f, rs) >= 0,
            rs,
            bound,
        ),
        _ => None,
    }
}

fn imm_test(m: ImmOp, rs: u8, imm: u16, f: &Facts) -> Option<Test>
    requires { AreFacts f.now }
    ensures { result ≡ meaning.imm_test m rs imm f.now }
{
    let bound = i32::from(imm.cast_signed());
    match m {
        ImmOp::Slti => test_if(true, rs, bound),
        ImmOp::Sltiu => test_if(bound >= 0 && least(f, rs) >= 0, rs, bound),
        _ => None,
    }
}

// The comparison that an instruction makes, if any.
#[tactic(auto, unfolding(crate::specs::Along::made_test))]
pub fn made_test(i: Instr, f: &Facts) -> Option<Test>
    requires { AreFacts f.now }
    ensures { result ≡ meaning.made_test i f.now }
{
    match i {
        Instr::R3 { m, rs, rt, .. } => r3_test(m, rs, rt, f),
        Instr::Imm { m, rs, imm, .. } => imm_test(m, rs, imm, f),
        _ => None,
    }
}

// A comparison is forgotten as its operand is written.
fn unless_of(r: u8, t: Option<Test>) -> Option<Test>
    ensures { result ≡ meaning.unless_of r t }
{
    match t {
        None => None,
        Some(t) => { if t.of == r { None } else { Some(t) } }
    }
}

fn forget(tests: &mut [Option<Test>; 32], r: u8)
    ensures { tests.new ≡ map (meaning.unless_of r) tests.old }
{
    for k in 0..32usize {
        tests[k] = unless_of(r, tests[k]);
    }
}

// The comparisons after a register is written, if one is.
pub fn change(tests: &mut [Option<Test>; 32], r: Option<u8>, made: Option<Test>)
    requires { IfSome r (λ q. q < 32) }
    ensures { tests.new ≡ meaning.tests_after tests.old r made }
{
    if let Some(r) = r {
        forget(tests, r);
        tests[r as usize] = unless_of(r, made);
    }
}
