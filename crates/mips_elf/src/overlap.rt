// Addresses that two segments share, or that are too high.
ghost use Rattle.std.specs.Prelude.{◌≡◌, ◌≤◌, ◌<◌, ℕ, true, count_by, IfSome, IfNone, Option, Some, None};
ghost use Rattle.mips_elf.specs.Segments.{holds, is_refused, first_too_high, AtMost, IsFound, IsLeastRefused};

use crate::segment::Segment;

/// The first address that is too high for a segment.
const FIRST_TOO_HIGH: u32 = 0xffff_0000;

/// The least address that is refused.
pub(crate) fn least_refused(loads: &[Segment]) -> Option<u32>
    ensures found { IfSome result (λ a. IsLeastRefused loads.now a) }
    ensures none { IfNone result ((a : ℕ) → is_refused loads.now a ≡ true → ⊥) }
{
    let mut least = None;
    for s in loads {
        least = lower(loads, least, s.address);
        least = lower(loads, least, s.address.max(FIRST_TOO_HIGH));
    }
    least
}

/// The lower of an address that is refused and a further one, if that is refused too.
fn lower(loads: &[Segment], least: Option<u32>, a: u32) -> Option<u32>
    requires { IsFound loads.now least }
    ensures found { IsFound loads.now result }
    ensures takes { is_refused loads.now a ≡ true → AtMost result a }
    ensures keeps { (b : ℕ) → AtMost least b → AtMost result b }
{
    if !has_refused(loads, a) {
        return least;
    }
    match least {
        Some(b) if b <= a => Some(b),
        _ => Some(a),
    }
}

fn has_refused(loads: &[Segment], a: u32) -> bool
    ensures { result ≡ is_refused loads.now a }
{
    let count = loads.iter().filter(|s| is_held(u64::from(a), **s)).count();
    count >= 2 || (a >= FIRST_TOO_HIGH && count >= 1)
}

fn is_held(a: u64, s: Segment) -> bool
    ensures { result ≡ holds a s }
{
    u64::from(s.address) <= a && a < u64::from(s.address) + u64::from(s.memory_len)
}
