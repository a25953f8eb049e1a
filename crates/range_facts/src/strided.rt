// Strided ranges as sets of numbers, and what a condition leaves of them.
ghost use Rattle.std.specs.Prelude.{◌||◌, ◌&&◌, ◌+ℤ◌, MatchOption, ◌≡◌, ◌≤ℤ◌, ◌≤◌, ◌<◌, ◌-◌, ◌^◌, ◌+◌, ◌↔◌, negsuc, pos, IsTrue};
ghost use Rattle.std.specs.Ordering.{int_eq};
ghost use Rattle.range_facts.specs.Ranges as ranges;
ghost use Rattle.range_facts.specs.Refining as refining;

/// The signed 32-bit values lo, lo + stride, .., hi. The stride is at least 1 and divides hi - lo; that of a constant is 1.
#[derive(Clone, Copy, Debug, PartialEq, Eq)]
pub struct Strided {
    pub lo: i64,
    pub hi: i64,
    pub stride: u32,
}

/// A condition on a number.
#[derive(Clone, Copy, Debug, PartialEq, Eq)]
pub enum Cond {
    Eq(i64),
    Ne(i64),
    AtMost(i64),
    AtLeast(i64),
}

// Every signed word.
pub fn unknown() -> Strided
    ensures { result ≡ ranges.unknown }
{
    Strided {
        lo: -0x8000_0000,
        hi: 0x7fff_ffff,
        stride: 1,
    }
}

pub fn constant(value: i32) -> Strided
    ensures { result ≡ ranges.constant value }
{
    Strided {
        lo: i64::from(value),
        hi: i64::from(value),
        stride: 1,
    }
}

// 0 to a number.
pub fn up_to(most: u32) -> Strided
    ensures { result ≡ ranges.up_to most }
{
    Strided {
        lo: 0,
        hi: i64::from(most),
        stride: 1,
    }
}

pub fn is_constant(s: Strided) -> bool
    ensures { result ≡ ranges.is_constant s }
{
    s.lo == s.hi
}

// lo, lo + stride, .., hi, where a constant has stride 1.
pub fn range(lo: i64, hi: i64, stride: u32) -> Strided
    ensures { result ≡ ranges.range lo hi stride }
{
    Strided {
        lo,
        hi,
        stride: if lo == hi { 1 } else { stride },
    }
}

// How far `to` is above `from`.
fn distance(from: i64, to: i64) -> u64
    requires low { negsuc (2 ^ 31 - 1) ≤ℤ from }
    requires order { from ≤ℤ to }
    requires high { to ≤ℤ pos (2 ^ 31 - 1) }
    ensures value { result ≡ refining.distance from to }
    ensures small { result < 2 ^ 32 }
{
    (to - from).unsigned_abs()
}

// The greatest whole number of strides that goes into a distance.
fn whole(distance: u64, stride: u32) -> u64
    requires { 0 < stride }
    ensures value { result ≡ refining.whole distance stride }
    ensures small { result ≤ distance }
{
    let stride = u64::from(stride);
    distance / stride * stride
}

// Whether a number is a value.
#[tactic(auto, unfolding(crate::specs::Refining::has))]
fn has(s: Strided, c: i64) -> bool
    requires { ranges.IsFact s }
    ensures { result ≡ refining.has s c }
{
    s.lo <= c && c <= s.hi && distance(s.lo, c) % u64::from(s.stride) == 0
}

// Cut to the values that are at most c.
#[tactic(auto, unfolding(crate::specs::Refining::cut_above))]
fn cut_above(s: Strided, c: i64) -> Option<Strided>
    requires { ranges.IsFact s }
    ensures { result ≡ refining.cut_above s c }
{
    if c < s.lo {
        None
    } else if s.hi <= c {
        Some(s)
    } else {
        let span = whole(distance(s.lo, c), s.stride);
        Some(range(s.lo, s.lo + span.cast_signed(), s.stride))
    }
}

// Cut to the values that are at least c.
#[tactic(auto, unfolding(crate::specs::Refining::cut_below))]
fn cut_below(s: Strided, c: i64) -> Option<Strided>
    requires { ranges.IsFact s }
    ensures { result ≡ refining.cut_below s c }
{
    if s.hi < c {
        None
    } else if c <= s.lo {
        Some(s)
    } else {
        let span = whole(distance(c, s.hi), s.stride);
        Some(range(s.hi - span.cast_signed(), s.hi, s.stride))
    }
}

#[tactic(auto, unfolding(crate::specs::Refining::left_of))]
fn left(s: Strided, c: Cond) -> Option<Strided>
    requires { ranges.IsFact s }
    ensures { result ≡ refining.left_of s c }
{
    match c {
        Cond::Eq(c) => {
            if has(s, c) {
                Some(Strided {
                    lo: c,
                    hi: c,
                    stride: 1,
                })
            } else {
                None
            }
        }
        Cond::Ne(c) => {
            if c == s.lo {
                cut_below(s, c + 1)
            } else if c == s.hi {
                cut_above(s, c - 1)
            } else {
                Some(s)
            }
        }
        Cond::AtMost(c) => cut_above(s, c),
        Cond::AtLeast(c) => cut_below(s, c),
    }
}

/// What a condition leaves of a fact: the values that meet it, where `Ne` takes away an end alone. None exactly where no value
/// meets the condition.
#[tactic(auto, using(crate::proofs::Left::leaving))]
pub fn refine(fact: Strided, c: Cond) -> Option<Strided>
    requires { ranges.IsFact fact }
    ensures value { result ≡ refining.left_of fact c }
    ensures left { refining.Leaves fact (refining.Stays fact c) result }
    ensures none { MatchOption result (¬ (refining.SomeMeets fact c)) (λ r. refining.SomeMeets fact c) }
{
    left(fact, c)
}

// Whether both ends of the first fact are values of the second, and the value after the lower end, if there is one.
fn ends_are_in(a: Strided, b: Strided) -> bool
    requires inner { ranges.IsFact a }
    requires outer { ranges.IsFact b }
    ensures { result ≡ (refining.has b a.lo && refining.has b a.hi && (int_eq a.lo a.hi || refining.has b (a.lo +ℤ pos a.stride))) }
{
    low_is_in(a, b) && high_is_in(a, b) && next_is_in(a, b)
}

fn low_is_in(a: Strided, b: Strided) -> bool
    requires inner { ranges.IsFact a }
    requires outer { ranges.IsFact b }
    ensures { result ≡ refining.has b a.lo }
{
    has(b, a.lo)
}

fn high_is_in(a: Strided, b: Strided) -> bool
    requires inner { ranges.IsFact a }
    requires outer { ranges.IsFact b }
    ensures { result ≡ refining.has b a.hi }
{
    has(b, a.hi)
}

fn next_is_in(a: Strided, b: Strided) -> bool
    requires inner { ranges.IsFact a }
    requires outer { ranges.IsFact b }
    ensures { result ≡ (int_eq a.lo a.hi || refining.has b (a.lo +ℤ pos a.stride)) }
{
    a.lo == a.hi || has(b, a.lo + i64::from(a.stride))
}

/// Whether each value of the first fact is one of the second.
pub fn within(a: Strided, b: Strided) -> bool
    requires inner { ranges.IsFact a }
    requires outer { ranges.IsFact b }
    ensures { IsTrue result ↔ ranges.IsWithin a b }
{
    ends_are_in(a, b)
}
