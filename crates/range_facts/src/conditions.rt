// The conditions that branches say of registers.
ghost use Rattle.std.specs.Prelude.{◌≡◌};
ghost use Rattle.range_facts.specs.Along as meaning;
ghost use Rattle.range_facts.specs.Ranges.{IsFact};

use crate::strided::{Cond, Strided};
use crate::tests::Test;
use mips_isa::{Branch1Op, Branch2Op};

// Whether a branch says that its two registers are equal.
pub fn says_equal(m: Branch2Op, taken: bool) -> bool
    ensures { result ≡ meaning.says_equal m taken }
{
    match m {
        Branch2Op::Beq => taken,
        Branch2Op::Bne => !taken,
    }
}

// Equal to a constant, or not.
pub fn equals(equal: bool, c: Strided) -> Cond
    requires { IsFact c }
    ensures { result ≡ meaning.equals equal c.lo }
{
    if equal {
        Cond::Eq(c.lo)
    } else {
        Cond::Ne(c.lo)
    }
}

// The register that a branch compares with register 0.
pub fn compared_with_zero(rs: u8, rt: u8) -> Option<u8>
    ensures { result ≡ meaning.compared_with_zero rs rt }
{
    if rt == 0 {
        Some(rs)
    } else if rs == 0 {
        Some(rt)
    } else {
        None
    }
}

// What the answer of a comparison says of its operand.
pub fn bound(is_zero: bool, t: Test) -> Cond
    ensures { result ≡ meaning.bound is_zero t }
{
    if is_zero {
        Cond::AtLeast(i64::from(t.bound))
    } else {
        Cond::AtMost(i64::from(t.bound) - 1)
    }
}

// The condition of a comparison with zero, taken or not; none of a branch that links.
pub fn sign_condition(m: Branch1Op, taken: bool) -> Option<Cond>
    ensures { result ≡ meaning.sign_condition m taken }
{
    match m {
        Branch1Op::Blez => Some(if taken {
            Cond::AtMost(0)
        } else {
            Cond::AtLeast(1)
        }),
        Branch1Op::Bgtz => Some(if taken {
            Cond::AtLeast(1)
        } else {
            Cond::AtMost(0)
        }),
        Branch1Op::Bltz => Some(if taken {
            Cond::AtMost(-1)
        } else {
            Cond::AtLeast(0)
        }),
        Branch1Op::Bgez => Some(if taken {
            Cond::AtLeast(0)
        } else {
            Cond::AtMost(-1)
        }),
        Branch1Op::Bltzal | Branch1Op::Bgezal => None,
    }
}
