//! A graph, and what is found in one: nested regions, the costliest walk, sub-tasks and charged lines, worked by hand.
ghost use Rattle.std.specs.Prelude.{◌≡◌, IfSome, length};
ghost use Rattle.flow_graph.specs.Code.{IsCode};
ghost use Rattle.flow_graph.specs.Flow.{IsGraph};
ghost use Rattle.loop_regions.specs.Nested.{IsNest};
ghost use Rattle.task_text.specs.Limits.{KeepsLimits};

use crate::given::{ENTRY, Given, task_of, text};
use flow_graph::{Graph, graph};
use loop_regions::{Nest, check_regions};
use path_wcet::{Costs, Pen, longest};
use persistence::charge;
use std::alloc::{AllocError, Global};
use std::test::Fail;
use subtask_cut::{Cuts, check_cuts};
use visa_io::Shape;

// A function that sums words, and behind it one that calls it.
const SUM_AND_DIVIDE: &str =
    "24850100 00001021 8c830000 24840004 1485fffd 00431021 03e00008 00000000\n\
     words 00400020 27bdffe0 afbf001c 3c041000 0c100000 00000000 24030040 0043001a 006001f4 00001012 3c03ffff ac620000 \
     8fbf001c 03e00008 27bd0020";

// The addresses of the units, each with its length.
const UNITS: &str =
    "400000 4, 400004 4, 400008 4, 40000c 4, 400010 8, 400018 8, 400020 4, 400024 4, 400028 4, 40002c 8, \
     400034 4, 400038 4, 40003c 4, 400040 4, 400044 4, 400048 4, 40004c 4, 400050 8, ";

const EDGES: &str =
    "400000 400004 Next, 400004 400008 Next, 400008 40000c Next, 40000c 400010 Next, \
     400010 400008 Taken, 400010 400018 Next, 400018 400034 Return, 400020 400024 Next, 400024 400028 Next, \
     400028 40002c Next, 40002c 400000 Call, 40002c 400034 Over, 400034 400038 Next, 400038 40003c Next, \
     40003c 400040 Next, 400040 400044 Next, 400044 400048 Next, 400048 40004c Next, 40004c 400050 Next, ";

// The graph of the code of a text.
fn graph_of(alloc: Global, text: &str, entry: u32) -> Option<Graph> {
    let given = task_of(alloc, text)?;
    graph(alloc, &given.code, entry).ok()
}

fn units_text(alloc: Global, g: &Graph) -> Result<String, AllocError> {
    let mut text = String::new(alloc);
    for unit in g.units() {
        let one = format!(in alloc; "{:x} {}, ", unit.at, unit.length)?;
        text.push_str(one.as_str())?;
    }
    Ok(text)
}

fn edges_text(alloc: Global, g: &Graph) -> Result<String, AllocError> {
    let mut text = String::new(alloc);
    for edge in g.edges() {
        let one = format!(in alloc; "{:x} {:x} {:?}, ", edge.from, edge.to, edge.kind)?;
        text.push_str(one.as_str())?;
    }
    Ok(text)
}

fn addresses_text(alloc: Global, addresses: &[u32]) -> Result<String, AllocError> {
    let mut text = String::new(alloc);
    for at in addresses {
        let one = format!(in alloc; "{at:x} ")?;
        text.push_str(one.as_str())?;
    }
    Ok(text)
}

// The units of a function; none where there is no such function.
fn units_of(g: &Graph, f: usize) -> &[u32] {
    if f < g.functions().len() {
        g.function_units(f)
    } else {
        &[]
    }
}

// The functions, the units of the first, and where blocks begin.
fn rest_text(alloc: Global, g: &Graph) -> Result<String, AllocError> {
    let functions = addresses_text(alloc, g.functions())?;
    let units = addresses_text(alloc, units_of(g, 0))?;
    let blocks = addresses_text(alloc, g.blocks())?;
    format!(in alloc; "{functions}| {units}| {blocks}")
}

#[test]
fn a_graph_has_its_units_edges_functions_and_blocks(rt: HostRuntime) -> Result<(), Fail> {
    let alloc = rt.alloc();
    let text = text(alloc, SUM_AND_DIVIDE, 0x0040_0020, "")?;
    let Some(mut g) = graph_of(alloc, text.as_str(), 0x0040_0020) else {
        panic!(rt; "no graph");
    };
    assert_eq!(rt; units_text(alloc, &g)?.as_str(), UNITS);
    assert_eq!(rt; edges_text(alloc, &g)?.as_str(), EDGES);
    // blocks begin at a unit more, and not at a slot nor where no code is
    g.graph_blocks(alloc, &[0x0040_0040, 0x0040_0014, 0x0050_0000])?;
    assert_eq!(rt;
        rest_text(alloc, &g)?.as_str(),
        "400000 400020 | 400000 400004 400008 40000c 400010 400018 | 400000 400008 400018 400020 400034 400040 "
    );
    Ok(())
}

// addiu $8,$0,2; addiu $9,$0,2; addiu $9,$9,-1; bne $9,$0,-2; nop; addiu $8,$8,-1; bne $8,$0,-6; nop; jr $31; nop
const NESTED_LOOPS: &str =
    "24080002 24090002 2529ffff 1520fffe 00000000 2508ffff 1500fffa 00000000 03e00008 00000000";

// The graph of a task's code, and the nest of its regions.
#[derive(Drop)]
struct Found {
    graph: Graph,
    nest: Nest,
}

fn analysed(alloc: Global, given: &Given) -> Option<Found>
    requires code { IsCode given.now.code }
    requires limits { KeepsLimits given.now.task }
    ensures graph { IfSome result (λ f. IsGraph given.now.code 0x400000 f.graph) }
    ensures nest { IfSome result (λ f. IsNest f.graph f.nest) }
    ensures regions { IfSome result (λ f. f.nest.regions ≡ given.now.task.regions) }
{
    let Ok(graph) = graph(alloc, &given.code, ENTRY) else {
        return None;
    };
    let Ok(nest) = check_regions(alloc, &graph, given.task.regions.as_slice()) else {
        return None;
    };
    Some(Found { graph, nest })
}

// What the costliest walk from the entry costs, where each fetch is charged; 0 where there is no memory.
fn most_of(alloc: Global, given: &Given, found: &Found) -> u64
    requires limits { KeepsLimits given.now.task }
    requires graph { IsGraph given.now.code 0x400000 found.now.graph }
    requires nest { IsNest found.now.graph found.now.nest }
    requires regions { found.now.nest.regions ≡ given.now.task.regions }
{
    let _ = given;
    let Ok(charge) = charge(alloc, &found.graph, &[], None) else {
        return 0;
    };
    let pen = Pen {
        m: 10,
        w: 10,
        mul: 4,
        div: 16,
    };
    longest(
        alloc,
        &found.graph,
        &found.nest,
        ENTRY,
        None,
        &Costs { charge, pen },
    )
    .unwrap_or(0)
}

fn cuts_of(alloc: Global, given: &Given, found: &Found) -> Option<Cuts>
    requires limits { KeepsLimits given.now.task }
    requires graph { IsGraph given.now.code 0x400000 found.now.graph }
    requires nest { IsNest found.now.graph found.now.nest }
    ensures { IfSome result (λ c. length c.scopes ≡ length c.firsts) }
{
    check_cuts(alloc, &found.graph, &found.nest, given.task.cuts.as_slice()).ok()
}

// The units of a sub-task; none where there is no such sub-task.
fn scope_of(cuts: &Cuts, i: usize) -> &[u32]
    requires { length cuts.now.scopes ≡ length cuts.now.firsts }
{
    if i < 1 || cuts.len() < i {
        &[]
    } else {
        cuts.scope(i)
    }
}

// How many lines of a scope are persistent in a cache with one line of sixteen bytes, and which of the ten
// instructions are charged: 1 says that one is.
fn charge_text(
    alloc: Global,
    given: &Given,
    found: &Found,
    scope: &[u32],
) -> Result<String, AllocError>
    requires graph { IsGraph given.now.code 0x400000 found.now.graph }
{
    let _ = given;
    let shape = Shape {
        sets: 1,
        ways: 1,
        line: 16,
    };
    let charge = charge(alloc, &found.graph, scope, Some(shape))?;
    let mut text = format!(in alloc; "{} ", charge.persistent())?;
    for k in 0..10u32 {
        text.push_str(if charge.charged(ENTRY | k << 2) {
            "1"
        } else {
            "0"
        })?;
    }
    Ok(text)
}

// The cost of the longest walk, and of each sub-task its units and what is charged.
fn analysis_text(alloc: Global, given: &Given) -> Result<String, AllocError>
    requires code { IsCode given.now.code }
    requires limits { KeepsLimits given.now.task }
{
    let Some(found) = analysed(alloc, given) else {
        return String::from_str(alloc, "no nest");
    };
    let Some(cuts) = cuts_of(alloc, given, &found) else {
        return String::from_str(alloc, "no cuts");
    };
    let most = most_of(alloc, given, &found);
    let first = addresses_text(alloc, scope_of(&cuts, 1))?;
    let first_charge = charge_text(alloc, given, &found, scope_of(&cuts, 1))?;
    let second = addresses_text(alloc, scope_of(&cuts, 2))?;
    let second_charge = charge_text(alloc, given, &found, scope_of(&cuts, 2))?;
    format!(in alloc; "{most}; {first}{first_charge}; {second}{second_charge}")
}

// 23 instructions of 11, and three exits of loops against the prediction. The two lines of the loops share
// the one line of the cache, the last two instructions have it alone.
#[test]
fn nested_loops_are_analysed(rt: HostRuntime) -> Result<(), Fail> {
    let alloc = rt.alloc();
    let lines =
        "cut 00400020\nloop 00400008 00400010 00400008 2 9\nloop 00400004 0040001c 00400004 2 8\n";
    let text = text(alloc, NESTED_LOOPS, ENTRY, lines)?;
    let Some(given) = task_of(alloc, text.as_str()) else {
        panic!(rt; "no task");
    };
    assert_eq!(rt;
        analysis_text(alloc, &given)?.as_str(),
        "259; 400000 400004 400008 40000c 400014 400018 0 1110110011; 400020 1 1111111100"
    );
    Ok(())
}
