//! Admitted tasks whose bounds were computed by hand.

use crate::given::{ENTRY, NO_INPUT, admission_of, text_with};
use std::test::Fail;

// lui $8,0x1000; addiu $9,$8,256; lw $10,0($8); addiu $8,$8,4; bne $8,$9,-3; nop; jr $31; nop
const POINTER_LOOP: &str =
    "3c081000 25090100 8d0a0000 25080004 1509fffd 00000000 03e00008 00000000";

const POINTER_FACTS: &str = "loop 00400008 00400014 00400008 64 8\n\
     fact 00400008 8 268435456 268435708 4\nfact 00400008 9 268435712 268435712 1\n";

// A function that sums the words between $4 and $4 + 256, and one that calls it, divides the sum by 64 and
// puts it out.
const SUM_AND_DIVIDE: &str =
    "24850100 00001021 8c830000 24840004 1485fffd 00431021 03e00008 00000000\n\
     words 00400020 27bdffe0 afbf001c 3c041000 0c100000 00000000 24030040 0043001a 006001f4 00001012 3c03ffff ac620000 \
     8fbf001c 03e00008 27bd0020";

const SUM_MEMORY: &str = "ram 7ffe0000 65536\nram 10000000 4096\ninput 10000000 256\n";

const SUM_FACTS: &str =
    "loop 00400008 00400014 00400008 64 4\nfact 00400000 4 268435456 268435456 1\n\
     fact 00400008 4 268435456 268435708 4\nfact 00400008 5 268435712 268435712 1\n";

// addiu $8,$0,2; addiu $9,$0,2; addiu $9,$9,-1; bne $9,$0,-2; nop; addiu $8,$8,-1; bne $8,$0,-6; nop; jr $31; nop
const NESTED_LOOPS: &str =
    "24080002 24090002 2529ffff 1520fffe 00000000 2508ffff 1500fffa 00000000 03e00008 00000000";

const NESTED_FACTS: &str =
    "loop 00400008 00400010 00400008 2 9\nloop 00400004 0040001c 00400004 2 8\n\
     fact 00400004 8 1 2 1\nfact 00400008 8 1 2 1\nfact 00400008 9 1 2 1\nfact 00400014 8 1 2 1\n";

#[test]
fn admitted_tasks_have_the_bounds_computed_by_hand(rt: HostRuntime) -> Result<(), Fail> {
    let alloc = rt.alloc();
    for (icache, words, entry, memory, cuts, rest, want) in [
        (
            "none",
            POINTER_LOOP,
            ENTRY,
            NO_INPUT,
            "",
            POINTER_FACTS,
            [3566, 0],
        ),
        (
            "none",
            SUM_AND_DIVIDE,
            0x0040_0020,
            SUM_MEMORY,
            "",
            SUM_FACTS,
            [3768, 0],
        ),
        (
            "none",
            NESTED_LOOPS,
            ENTRY,
            NO_INPUT,
            "",
            NESTED_FACTS,
            [259, 0],
        ),
        (
            "1 3 16",
            NESTED_LOOPS,
            ENTRY,
            NO_INPUT,
            "",
            NESTED_FACTS,
            [59, 0],
        ),
        (
            "1 2 16",
            NESTED_LOOPS,
            ENTRY,
            NO_INPUT,
            "",
            NESTED_FACTS,
            [169, 0],
        ),
        (
            "4 1 16",
            NESTED_LOOPS,
            ENTRY,
            NO_INPUT,
            "cut 00400020\n",
            NESTED_FACTS,
            [47, 12],
        ),
    ] {
        let rest = format!(in alloc; "{cuts}{rest}")?;
        let text = text_with(alloc, icache, words, entry, memory, rest.as_str())?;
        assert_eq!(rt;
            admission_of(alloc, text.as_str()),
            Some(Ok(want)),
            "{icache} {words}"
        );
    }
    Ok(())
}
