//! Each kind of refusal once at each of its causes, and what stands just within the rules beside it.

use crate::given::{ENTRY, admission_of, text};
use admission::Refusal;
use bound_checker::{CountFault, FactFault};
use flow_graph::FlowFault;
use loop_regions::RegionFault;
use std::test::Fail;
use subtask_cut::CutFault;

// The words of a task, its entry, and its first fault.
const FLOW_FAULTS: [(&str, u32, FlowFault); 18] = [
    // beq $0,$0 over a slot that is no instruction
    (
        "10000001 fc000000 03e00008 00000000",
        ENTRY,
        FlowFault::Reserved { at: 0x0040_0004 },
    ),
    // jalr $31,$25; jr $2
    (
        "0320f809 00000000 03e00008 00000000",
        ENTRY,
        FlowFault::Indirect { at: 0x0040_0000 },
    ),
    (
        "00400008 00000000",
        ENTRY,
        FlowFault::Indirect { at: 0x0040_0000 },
    ),
    // bltzal $2; bgezal $2
    (
        "04500001 00000000 03e00008 00000000",
        ENTRY,
        FlowFault::LinkBranch { at: 0x0040_0000 },
    ),
    (
        "04510001 00000000 03e00008 00000000",
        ENTRY,
        FlowFault::LinkBranch { at: 0x0040_0000 },
    ),
    // jr $31 in the slot of a beq
    (
        "10000001 03e00008 03e00008 00000000",
        ENTRY,
        FlowFault::SlotControl { at: 0x0040_0004 },
    ),
    // bne $2,$0 to its own slot
    (
        "14400000 00000000 03e00008 00000000",
        ENTRY,
        FlowFault::SlotTarget { at: 0x0040_0004 },
    ),
    // the code ends behind an addiu, before a slot, at a target and at a return point
    ("24020007", ENTRY, FlowFault::OffCode { at: 0x0040_0000 }),
    (
        "24020007 03e00008",
        ENTRY,
        FlowFault::OffCode { at: 0x0040_0004 },
    ),
    (
        "24020007 08140000 00000000",
        ENTRY,
        FlowFault::OffCode { at: 0x0040_0004 },
    ),
    (
        "10000003 00000000 03e00008 00000000 0c100002 00000000",
        ENTRY,
        FlowFault::OffCode { at: 0x0040_0010 },
    ),
    // an entry where no code is, and one inside a word
    (
        "03e00008 00000000",
        0x0040_0008,
        FlowFault::OffCode { at: 0x0040_0008 },
    ),
    (
        "03e00008 00000000",
        0x0040_0002,
        FlowFault::OffCode { at: 0x0040_0002 },
    ),
    // a function that calls itself, and three that call each other, called from a fourth
    (
        "0c100000 00000000 03e00008 00000000",
        ENTRY,
        FlowFault::Recursion { at: 0x0040_0000 },
    ),
    (
        "0c100004 00000000 03e00008 00000000 0c100008 00000000 03e00008 00000000 \
         0c10000c 00000000 03e00008 00000000 0c100004 00000000 03e00008 00000000",
        ENTRY,
        FlowFault::Recursion { at: 0x0040_0010 },
    ),
    // bne $2,$0 to a reserved word, past a jr $2; to a jalr, past a jr $2; to a jr $2, past a call of the entry
    (
        "14400003 00000000 00400008 00000000 fc000000",
        ENTRY,
        FlowFault::Reserved { at: 0x0040_0010 },
    ),
    (
        "14400003 00000000 00400008 00000000 0320f809 00000000 03e00008 00000000",
        ENTRY,
        FlowFault::Indirect { at: 0x0040_0008 },
    ),
    (
        "14400003 00000000 0c100000 00000000 00400008 00000000 03e00008 00000000",
        ENTRY,
        FlowFault::Indirect { at: 0x0040_0010 },
    ),
];

#[test]
fn code_is_refused_by_its_first_fault(rt: HostRuntime) -> Result<(), Fail> {
    let alloc = rt.alloc();
    for (words, entry, fault) in FLOW_FAULTS {
        let text = text(alloc, words, entry, "")?;
        let want = Some(Err(Refusal::Flow(fault)));
        assert_eq!(rt; admission_of(alloc, text.as_str()), want, "{words}");
    }
    Ok(())
}

// bal to the function behind this one; nop; jr $31; nop. It costs 44 cycles, and the return to it 2; the last
// one costs 22.
const CALLER: &str = "04110003 00000000 03e00008 00000000";

#[test]
fn a_chain_of_63_calls_is_no_fault(rt: HostRuntime) -> Result<(), Fail> {
    let alloc = rt.alloc();
    for (calls, want) in [
        (1u32, Ok([68, 0])),
        (63, Ok([2920, 0])),
        (64, Err(Refusal::Flow(FlowFault::Deep))),
    ] {
        let mut words = String::new(alloc);
        let mut next = ENTRY;
        for _ in 0..calls {
            next = next.wrapping_add(16);
            let line = format!(in alloc; "{CALLER}\nwords {next:08x} ")?;
            words.push_str(line.as_str())?;
        }
        words.push_str("03e00008 00000000")?;
        let text = text(alloc, words.as_str(), ENTRY, "")?;
        assert_eq!(rt;
            admission_of(alloc, text.as_str()),
            Some(want),
            "{calls} calls"
        );
    }
    Ok(())
}

// lui $8,0x1000; addiu $9,$8,256; lw $10,0($8); addiu $8,$8,4; bne $8,$9,-3; nop; jr $31; nop
const POINTER_LOOP: &str =
    "3c081000 25090100 8d0a0000 25080004 1509fffd 00000000 03e00008 00000000";

// The lines of loops, and the first fault of the regions.
const REGION_FAULTS: [(&str, RegionFault); 8] = [
    // the header isn't in the region; is a slot; is the header of an earlier region
    (
        "loop 00400008 00400014 00400004 64 8\n",
        RegionFault::Crossing { r: 1 },
    ),
    (
        "loop 00400008 00400014 00400014 64 8\n",
        RegionFault::Crossing { r: 1 },
    ),
    (
        "loop 00400008 00400014 00400008 64 8\nloop 00400008 00400010 00400008 64 8\n",
        RegionFault::Crossing { r: 2 },
    ),
    // two regions overlap
    (
        "loop 00400008 00400014 00400008 64 8\nloop 0040000c 00400018 0040000c 64 8\n",
        RegionFault::Crossing { r: 2 },
    ),
    // the region is entered before its header; behind it; a function begins in it
    (
        "loop 00400008 00400014 0040000c 64 8\n",
        RegionFault::SideEntry {
            r: 1,
            from: 0x0040_0004,
            to: 0x0040_0008,
        },
    ),
    (
        "loop 00400008 0040000c 00400008 64 8\nloop 00400010 00400018 00400018 64 8\n",
        RegionFault::SideEntry {
            r: 2,
            from: 0x0040_000c,
            to: 0x0040_0010,
        },
    ),
    (
        "loop 00400000 00400014 00400008 64 8\n",
        RegionFault::SideEntry {
            r: 1,
            from: 0xffff_fff0,
            to: 0x0040_0000,
        },
    ),
    // no region goes round
    ("", RegionFault::FreeCycle { at: 0x0040_0008 }),
];

#[test]
fn regions_are_refused_by_their_first_fault(rt: HostRuntime) -> Result<(), Fail> {
    let alloc = rt.alloc();
    for (loops, fault) in REGION_FAULTS {
        let text = text(alloc, POINTER_LOOP, ENTRY, loops)?;
        let want = Some(Err(Refusal::Region(fault)));
        assert_eq!(rt; admission_of(alloc, text.as_str()), want, "{loops}");
    }
    Ok(())
}

// addiu $9,$0,4; addiu $9,$9,-1; bne $9,$0,-2; nop; jr $31; nop
const DOWN_FROM_4: &str = "24090004 2529ffff 1520fffe 00000000 03e00008 00000000";

// lui $8,0x7fff; ori $8,$8,0xffff; lui $9,0x8000; addiu $9,$9,1; bne $9,$8,-2; nop; jr $31; nop
const TO_THE_TOP: &str = "3c087fff 3508ffff 3c098000 25290001 1528fffe 00000000 03e00008 00000000";

// The words of a loop, the lines of its region and facts, and the bound or the first fault.
const COUNTS: [(&str, &str, Result<u64, Refusal>); 13] = [
    // 11 + 4 * 33 + 2 + 22
    (
        DOWN_FROM_4,
        "loop 00400004 00400008 00400004 4 9\nfact 00400004 9 1 4 1\n",
        Ok(167),
    ),
    (
        DOWN_FROM_4,
        "loop 00400004 00400008 00400004 3 9\nfact 00400004 9 1 4 1\n",
        Err(Refusal::Loop(CountFault::TooFew { r: 1, needed: 4 })),
    ),
    // the counter opens at 1, and the loop is gone through once
    (
        "24090001 2529ffff 1520fffe 00000000 03e00008 00000000",
        "loop 00400004 00400008 00400004 1 9\nfact 00400004 9 1 1 1\n",
        Ok(68),
    ),
    // from -2147483648 up to 2147483646, by steps of one: 33 + 4294967295 * 33 + 2 + 22 are 141733920792 cycles
    (
        TO_THE_TOP,
        "loop 0040000c 00400010 0040000c 4294967295 9\n\
         fact 0040000c 8 2147483647 2147483647 1\nfact 0040000c 9 -2147483648 2147483646 1\n",
        Err(Refusal::Exceeds {
            needed_ps: 141_733_920_851_000,
            deadline_ps: 1_000_000_000_000,
        }),
    ),
    (
        TO_THE_TOP,
        "loop 0040000c 00400010 0040000c 4294967294 9\n\
         fact 0040000c 8 2147483647 2147483647 1\nfact 0040000c 9 -2147483648 2147483646 1\n",
        Err(Refusal::Loop(CountFault::TooFew {
            r: 1,
            needed: 4_294_967_295,
        })),
    ),
    // no step of $8; the slot of the branch sets $9 to 1; it adds 1; it calls what sets $9
    (
        DOWN_FROM_4,
        "loop 00400004 00400008 00400004 4 8\nfact 00400004 9 1 4 1\n",
        Err(Refusal::Loop(CountFault::NoStep { r: 1 })),
    ),
    (
        "24090004 2529ffff 1520fffe 24090001 03e00008 00000000",
        "loop 00400004 00400008 00400004 4 9\nfact 00400004 9 1 4 1\n",
        Err(Refusal::Loop(CountFault::OtherWrite {
            r: 1,
            at: 0x0040_000c,
        })),
    ),
    (
        "24090004 2529ffff 1520fffe 25290001 03e00008 00000000",
        "loop 00400004 00400008 00400004 4 9\nfact 00400004 9 1 4 1\n",
        Err(Refusal::Loop(CountFault::OtherWrite {
            r: 1,
            at: 0x0040_000c,
        })),
    ),
    (
        "24090004 0c100007 2529ffff 1520fffd 00000000 03e00008 00000000 24090002 03e00008 00000000",
        "loop 00400004 00400010 00400004 4 9\n",
        Err(Refusal::Loop(CountFault::OtherWrite {
            r: 1,
            at: 0x0040_001c,
        })),
    ),
    // lui $8,0x7fff; ori $8,$8,0xfffe; addiu $8,$8,2; bgtz $8,-2: the sum leaves the signed words
    (
        "3c087fff 3508fffe 25080002 1d00fffe 00000000 03e00008 00000000",
        "loop 00400008 00400010 00400008 1 8\nfact 00400008 8 2147483646 2147483646 1\n",
        Err(Refusal::Loop(CountFault::Wraps {
            r: 1,
            at: 0x0040_0008,
        })),
    ),
    // addiu $9,$9,1 from an unknown number on
    (
        "24090004 25290001 1520fffe 00000000 03e00008 00000000",
        "loop 00400004 00400008 00400004 4294967295 9\n",
        Err(Refusal::Loop(CountFault::Wraps {
            r: 1,
            at: 0x0040_0004,
        })),
    ),
    // a fact that the loop doesn't keep, and one that the opening doesn't
    (
        DOWN_FROM_4,
        "loop 00400004 00400008 00400004 4 9\nfact 00400004 9 2 4 1\n",
        Err(Refusal::Fact(FactFault::NotHeld {
            from: 0x0040_0008,
            to: 0x0040_0004,
            register: 9,
        })),
    ),
    (
        DOWN_FROM_4,
        "loop 00400004 00400008 00400004 4 9\nfact 00400000 9 1 4 1\nfact 00400004 9 1 4 1\n",
        Err(Refusal::Fact(FactFault::NotHeld {
            from: 0xffff_fff0,
            to: 0x0040_0000,
            register: 9,
        })),
    ),
];

#[test]
fn counts_and_facts_are_refused_by_their_first_fault(rt: HostRuntime) -> Result<(), Fail> {
    let alloc = rt.alloc();
    for (words, rest, want) in COUNTS {
        let text = text(alloc, words, ENTRY, rest)?;
        let want = want.map(|bound| [bound, 0]);
        assert_eq!(rt;
            admission_of(alloc, text.as_str()),
            Some(want),
            "{words}\n{rest}"
        );
    }
    Ok(())
}

// addiu $9,$0,4; addiu $9,$9,-1; bne $9,$0,-2; nop; jal 00400028; nop; beq $2,$0,+2; nop; addiu $2,$0,7;
// addiu $3,$0,7; and at 00400028 jr $31; nop, which is a function and the end of the first one too
const CALLS_AND_LOOPS: &str =
    "24090004 2529ffff 1520fffe 00000000 0c10000a 00000000 10400002 00000000 \
     24020007 24030007 03e00008 00000000";

// The lines of cuts, and the bounds of the two sub-tasks or the first fault.
const CUTS: [(&str, Result<[u64; 2], Refusal>); 8] = [
    // directly behind the loop: 11 + 4 * 33 + 2; jal, the function, the return to it, beq by its prediction,
    // addiu twice and the end, 22 + 22 + 2 + 22 + 11 + 11 + 22
    ("cut 00400010\n", Ok([145, 112])),
    // a slot; what is no code
    ("cut 0040000c\n", Err(Refusal::Cut(CutFault::Slot { i: 2 }))),
    ("cut 00500000\n", Err(Refusal::Cut(CutFault::Slot { i: 2 }))),
    // a unit of the called function too
    (
        "cut 00400010\ncut 00400028\n",
        Err(Refusal::Cut(CutFault::InCallee { i: 3 })),
    ),
    // the header of the loop
    (
        "cut 00400004\n",
        Err(Refusal::Cut(CutFault::InRegion { i: 2 })),
    ),
    // the entry; one before an earlier one
    (
        "cut 00400000\n",
        Err(Refusal::Cut(CutFault::Order { i: 2 })),
    ),
    (
        "cut 00400018\ncut 00400010\n",
        Err(Refusal::Cut(CutFault::Order { i: 3 })),
    ),
    // the branch goes past it
    (
        "cut 00400020\n",
        Err(Refusal::Cut(CutFault::Bypassed { i: 2 })),
    ),
];

#[test]
fn cuts_are_refused_by_their_first_fault(rt: HostRuntime) -> Result<(), Fail> {
    let alloc = rt.alloc();
    for (cuts, want) in CUTS {
        let rest = format!(in alloc;
            "{cuts}loop 00400004 00400008 00400004 4 9\nfact 00400004 9 1 4 1\n"
        )?;
        let text = text(alloc, CALLS_AND_LOOPS, ENTRY, rest.as_str())?;
        assert_eq!(rt; admission_of(alloc, text.as_str()), Some(want), "{cuts}");
    }
    Ok(())
}
