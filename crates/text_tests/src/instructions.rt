// Texts of instructions: words of an assembler, and faults at each place.
use mips_isa::decode;
use mips_text::parse_instr;

// The address of the texts, unless a test names another one.
const AT: u32 = 0x40_0000;

// The column of a text's fault, or 0 where it has none.
fn column(text: &str) -> u32 {
    match parse_instr(text.as_bytes(), AT) {
        Ok(_) => 0,
        Err(fault) => fault.column,
    }
}

#[test]
fn texts_are_read_as_an_assembler_spells_them(rt: HostRuntime) {
    for (text, word) in [
        ("addiu $2,$0,7", 0x2402_0007),
        ("addiu $29,$29,-32", 0x27bd_ffe0),
        ("ori $5,$5,65535", 0x34a5_ffff),
        ("lui $4,4096", 0x3c04_1000),
        ("lw $31,24($29)", 0x8fbf_0018),
        ("sw $4,-4($29)", 0xafa4_fffc),
        ("pref 5,0($2)", 0xcc45_0000),
        ("sll $2,$3,4", 0x0003_1100),
        ("sllv $2,$3,$4", 0x0083_1004),
        ("addu $2,$3,$4", 0x0064_1021),
        ("mul $2,$3,$4", 0x7064_1002),
        ("mult $3,$4", 0x0064_0018),
        ("mflo $2", 0x0000_1012),
        ("mthi $3", 0x0060_0011),
        ("clz $2,$3", 0x7062_1020),
        ("beq $2,$3,00400000", 0x1043_ffff),
        ("bgezal $0,00400010", 0x0411_0003),
        ("j 00400020", 0x0810_0008),
        ("jr $31", 0x03e0_0008),
        ("jalr $31,$25", 0x0320_f809),
        ("teq $2,$0,7", 0x0040_01f4),
        ("syscall 0", 0x0000_000c),
        ("break 1048575", 0x03ff_ffcd),
        ("sync 0", 0x0000_000f),
    ] {
        assert!(rt;
            parse_instr(text.as_bytes(), AT).ok() == decode(word),
            "at {text}"
        );
    }
}

#[test]
fn a_fault_is_told_at_the_first_column_that_no_text_has(rt: HostRuntime) {
    for (text, at) in [
        ("", 1),
        ("q", 1),
        ("x", 2),
        ("ADD $2,$3,$4", 1),
        ("ad", 3),
        ("addx $2,$3,$4", 4),
        ("addiu", 6),
        ("addiu  $2,$0,7", 7),
        ("add $32,$0,$0", 7),
        ("add $02,$0,$0", 7),
        ("add $2, $3,$4", 8),
        ("add $2,$3,$4 ", 13),
        ("addiu $2,$0,70000", 17),
        ("addiu $2,$0,32768", 17),
        ("addiu $2,$0,-32769", 18),
        ("addiu $2,$0,-0", 14),
        ("addiu $2,$0,-", 14),
        ("andi $2,$0,-1", 12),
        ("andi $2,$0,65536", 16),
        ("sll $2,$3,32", 12),
        ("lw $2,4", 8),
        ("lw $2,4($3", 11),
        ("lw $2,4[$3)", 8),
        ("lw $2,4($3))", 12),
        ("pref 32,0($2)", 7),
        ("mult $2", 8),
        ("jr $31,$2", 7),
        ("teq $0,$0,1024", 14),
        ("break 1048576", 13),
        ("sync 320", 7),
        ("j 10000000", 3),
        ("j 00400002", 10),
        ("jal 0040000", 12),
        ("beq $0,$0,00420000", 0),
        ("beq $0,$0,00420004", 18),
        ("beq $0,$0,003e0004", 0),
        ("beq $0,$0,003e0000", 18),
        ("beq $0,$0,003d", 14),
        ("beq $0,$0,0040001C", 18),
        ("beq $0,$0,004000000", 19),
    ] {
        assert!(rt; column(text) == at, "at {text}");
    }
}

#[test]
fn targets_wrap_at_the_ends_of_memory(rt: HostRuntime) {
    for text in ["bgez $1,fffe0004", "bgez $1,00020000"] {
        assert!(rt; parse_instr(text.as_bytes(), 0).is_ok(), "at {text}");
    }
    for text in ["j f0000000", "jal fffffffc"] {
        assert!(rt;
            parse_instr(text.as_bytes(), 0xffff_fff8).is_ok(),
            "at {text}"
        );
        assert!(rt;
            parse_instr(text.as_bytes(), 0xffff_fffc).is_err(),
            "at {text}"
        );
    }
}
