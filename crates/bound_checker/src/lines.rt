// The facts at the starts of blocks, from fact lines.
ghost use Rattle.std.specs.Prelude.{◌≡◌, ◌<◌, ℕ, IfOk, All};
ghost use Rattle.std.specs.Ordering.{nat_cmp};
ghost use Rattle.std.specs.BTreeMap.{get};
ghost use Rattle.std.specs.Option.{unwrap_or};
ghost use Rattle.bound_checker.specs.Lines as meaning;

use range_facts::{Facts, Strided};
use std::alloc::{AllocError, Global};
use std::collections::BTreeMap;
use visa_io::FactLine;

// Nothing is known, but that register 0 is 0.
#[tactic(auto, unfolding(crate::specs::Lines::no_facts))]
fn no_facts() -> Facts
    ensures { result ≡ meaning.no_facts }
{
    let any = Strided {
        lo: -0x8000_0000,
        hi: 0x7fff_ffff,
        stride: 1,
    };
    let mut ranges = [any; 32];
    ranges[0] = Strided {
        lo: 0,
        hi: 0,
        stride: 1,
    };
    Facts { ranges }
}

fn line_range(line: FactLine) -> Strided
    ensures { result ≡ meaning.line_range line }
{
    Strided {
        lo: line.lo,
        hi: line.hi,
        stride: line.stride,
    }
}

// The facts at an address.
pub(crate) fn facts_in(table: &BTreeMap<u32, Facts>, a: u32) -> Facts
    ensures { result ≡ unwrap_or (get nat_cmp table.now a) meaning.no_facts }
{
    match table.get(&a) {
        Some(f) => *f,
        None => no_facts(),
    }
}

fn add_line(table: &mut BTreeMap<u32, Facts>, line: FactLine) -> Result<(), AllocError>
    requires { line.register < 32 }
    ensures { IfOk result (λ u. (a : ℕ) → unwrap_or (get nat_cmp table.new a) meaning.no_facts ≡ meaning.put_line a (unwrap_or (get nat_cmp table.old a) meaning.no_facts) line) }
{
    let mut f = facts_in(table, line.at);
    f.put(line.register, line_range(line));
    match table.insert(line.at, f) {
        Ok(_) => Ok(()),
        Err(_) => Err(AllocError),
    }
}

// The facts of all lines, by address.
pub(crate) fn table_of(
    alloc: Global,
    lines: &[FactLine],
) -> Result<BTreeMap<u32, Facts>, AllocError>
    requires { All (λ line. line.register < 32) lines.now }
    ensures { IfOk result (λ table. (a : ℕ) → unwrap_or (get nat_cmp table a) meaning.no_facts ≡ meaning.facts_at lines.now a) }
{
    let mut table = BTreeMap::new(alloc);
    for line in lines {
        add_line(&mut table, *line)?;
    }
    Ok(table)
}
