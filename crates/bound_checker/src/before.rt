// The facts before each unit.
ghost use Rattle.std.specs.Prelude.{◌≡◌, ◌<◌, ◌≤◌, ◌+◌, length};
ghost use Rattle.bound_checker.specs.Input.{IsBefore, IsInput, IsTable};
ghost use Rattle.bound_checker.specs.Lines as meaning;
ghost use Rattle.range_facts.specs.Along.{begun};

use crate::ends::behind_first;
use crate::lines::facts_in;
use crate::units::{starts, unit_at};
use flow_graph::Graph;
use range_facts::{Along, Facts};
use std::collections::BTreeMap;
use visa_io::{Code, FactLine};

fn begun_at(lines: &[FactLine], table: &BTreeMap<u32, Facts>, a: u32) -> Along
    requires { IsTable lines.now table.now }
    ensures { result ≡ begun (meaning.facts_at lines.now a) }
{
    let _ = lines;
    Along::begin(facts_in(table, a))
}

// The facts before the first unit.
pub(crate) fn first(
    code: &Code,
    g: &Graph,
    lines: &[FactLine],
    table: &BTreeMap<u32, Facts>,
) -> Along
    requires input { IsInput code.now g.now lines.now }
    requires table { IsTable lines.now table.now }
    requires some { 0 < length g.now.units }
    ensures { IsBefore code.now g.now lines.now 0 result }
{
    let _ = code;
    begun_at(lines, table, unit_at(g, 0).at)
}

// The facts before the next unit, from those before one.
pub(crate) fn next(
    code: &Code,
    g: &Graph,
    lines: &[FactLine],
    table: &BTreeMap<u32, Facts>,
    n: usize,
    to: usize,
    a: Along,
) -> Along
    requires input { IsInput code.now g.now lines.now }
    requires table { IsTable lines.now table.now }
    requires before { IsBefore code.now g.now lines.now n a }
    requires next { to ≡ n + 1 }
    requires more { to < length g.now.units }
    ensures { IsBefore code.now g.now lines.now to result }
{
    let _ = code;
    let at = unit_at(g, to).at;
    if starts(g.blocks(), at) {
        begun_at(lines, table, at)
    } else {
        behind_first(unit_at(g, n), a)
    }
}
