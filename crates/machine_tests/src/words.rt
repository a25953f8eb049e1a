//! Words of the GNU assembler (binutils 2.40, `-mips32`) for each member, and words that MIPS32 has
//! for other instructions or none.

use mips_isa::decode;
use std::alloc::AllocError;

const ASSEMBLED: [(u32, &str); 75] = [
    (0x0062_0804, "R3 { m: Sllv, rs: 3, rt: 2, rd: 1 }"),
    (0x00c5_2006, "R3 { m: Srlv, rs: 6, rt: 5, rd: 4 }"),
    (0x03be_f807, "R3 { m: Srav, rs: 29, rt: 30, rd: 31 }"),
    (0x0109_380a, "R3 { m: Movz, rs: 8, rt: 9, rd: 7 }"),
    (0x016c_500b, "R3 { m: Movn, rs: 11, rt: 12, rd: 10 }"),
    (0x01cf_6820, "R3 { m: Add, rs: 14, rt: 15, rd: 13 }"),
    (0x0232_8021, "R3 { m: Addu, rs: 17, rt: 18, rd: 16 }"),
    (0x0295_9822, "R3 { m: Sub, rs: 20, rt: 21, rd: 19 }"),
    (0x02f8_b023, "R3 { m: Subu, rs: 23, rt: 24, rd: 22 }"),
    (0x035b_c824, "R3 { m: And, rs: 26, rt: 27, rd: 25 }"),
    (0x0200_f825, "R3 { m: Or, rs: 16, rt: 0, rd: 31 }"),
    (0x03be_e026, "R3 { m: Xor, rs: 29, rt: 30, rd: 28 }"),
    (0x0064_1027, "R3 { m: Nor, rs: 3, rt: 4, rd: 2 }"),
    (0x00c7_282a, "R3 { m: Slt, rs: 6, rt: 7, rd: 5 }"),
    (0x012a_402b, "R3 { m: Sltu, rs: 9, rt: 10, rd: 8 }"),
    (0x7042_2002, "R3 { m: Mul, rs: 2, rt: 2, rd: 4 }"),
    (0x0000_0000, "Shift { m: Sll, rt: 0, rd: 0, sa: 0 }"),
    (0x000a_4fc2, "Shift { m: Srl, rt: 10, rd: 9, sa: 31 }"),
    (0x000c_5c03, "Shift { m: Sra, rt: 12, rd: 11, sa: 16 }"),
    (0x01ae_0018, "Acc { m: Mult, rs: 13, rt: 14 }"),
    (0x01f0_0019, "Acc { m: Multu, rs: 15, rt: 16 }"),
    (0x0232_001a, "Acc { m: Div, rs: 17, rt: 18 }"),
    (0x0274_001b, "Acc { m: Divu, rs: 19, rt: 20 }"),
    (0x72b6_0000, "Acc { m: Madd, rs: 21, rt: 22 }"),
    (0x72f8_0001, "Acc { m: Maddu, rs: 23, rt: 24 }"),
    (0x733a_0004, "Acc { m: Msub, rs: 25, rt: 26 }"),
    (0x737c_0005, "Acc { m: Msubu, rs: 27, rt: 28 }"),
    (0x0000_e810, "HiLo { m: Mfhi, rs: 0, rd: 29 }"),
    (0x0000_f012, "HiLo { m: Mflo, rs: 0, rd: 30 }"),
    (0x03e0_0011, "HiLo { m: Mthi, rs: 31, rd: 0 }"),
    (0x0020_0013, "HiLo { m: Mtlo, rs: 1, rd: 0 }"),
    (0x7062_1020, "Count { m: Clz, rs: 3, rd: 2 }"),
    (0x70a4_2021, "Count { m: Clo, rs: 5, rd: 4 }"),
    (0x20e6_fff8, "Imm { m: Addi, rs: 7, rt: 6, imm: 65528 }"),
    (0x2402_0007, "Imm { m: Addiu, rs: 0, rt: 2, imm: 7 }"),
    (0x2928_8000, "Imm { m: Slti, rs: 9, rt: 8, imm: 32768 }"),
    (0x2d6a_7fff, "Imm { m: Sltiu, rs: 11, rt: 10, imm: 32767 }"),
    (0x31ac_ffff, "Imm { m: Andi, rs: 13, rt: 12, imm: 65535 }"),
    (0x35ee_0001, "Imm { m: Ori, rs: 15, rt: 14, imm: 1 }"),
    (0x3a30_8000, "Imm { m: Xori, rs: 17, rt: 16, imm: 32768 }"),
    (0x3c03_ffff, "Lui { rt: 3, imm: 65535 }"),
    (0x8272_ffff, "Load { m: Lb, rs: 19, rt: 18, off: 65535 }"),
    (0x86b4_0002, "Load { m: Lh, rs: 21, rt: 20, off: 2 }"),
    (0x8af6_0004, "Load { m: Lwl, rs: 23, rt: 22, off: 4 }"),
    (0x8f38_0008, "Load { m: Lw, rs: 25, rt: 24, off: 8 }"),
    (0x937a_0010, "Load { m: Lbu, rs: 27, rt: 26, off: 16 }"),
    (0x97bc_0020, "Load { m: Lhu, rs: 29, rt: 28, off: 32 }"),
    (0x9bfe_0040, "Load { m: Lwr, rs: 31, rt: 30, off: 64 }"),
    (0xa041_0080, "Store { m: Sb, rs: 2, rt: 1, off: 128 }"),
    (0xa483_0100, "Store { m: Sh, rs: 4, rt: 3, off: 256 }"),
    (0xa8c5_0200, "Store { m: Swl, rs: 6, rt: 5, off: 512 }"),
    (0xac62_0000, "Store { m: Sw, rs: 3, rt: 2, off: 0 }"),
    (0xb907_0400, "Store { m: Swr, rs: 8, rt: 7, off: 1024 }"),
    (0xcd25_000c, "Pref { rs: 9, hint: 5, off: 12 }"),
    (0x114b_0003, "Branch2 { m: Beq, rs: 10, rt: 11, off: 3 }"),
    (
        0x158d_fffc,
        "Branch2 { m: Bne, rs: 12, rt: 13, off: 65532 }",
    ),
    (0x19c0_0005, "Branch1 { m: Blez, rs: 14, off: 5 }"),
    (0x1de0_fffa, "Branch1 { m: Bgtz, rs: 15, off: 65530 }"),
    (0x0600_0007, "Branch1 { m: Bltz, rs: 16, off: 7 }"),
    (0x0481_0003, "Branch1 { m: Bgez, rs: 4, off: 3 }"),
    (0x0630_ffff, "Branch1 { m: Bltzal, rs: 17, off: 65535 }"),
    (0x0411_0002, "Branch1 { m: Bgezal, rs: 0, off: 2 }"),
    (0x0800_0007, "Jump { m: J, target: 7 }"),
    (0x0c00_0007, "Jump { m: Jal, target: 7 }"),
    (0x03e0_0008, "Jr { rs: 31 }"),
    (0x02a0_a009, "Jalr { rs: 21, rd: 20 }"),
    (0x02d7_0070, "TrapIf { m: Tge, rs: 22, rt: 23, code: 1 }"),
    (0x0319_00b1, "TrapIf { m: Tgeu, rs: 24, rt: 25, code: 2 }"),
    (0x035b_fff2, "TrapIf { m: Tlt, rs: 26, rt: 27, code: 1023 }"),
    (0x039d_0133, "TrapIf { m: Tltu, rs: 28, rt: 29, code: 4 }"),
    (0x03df_0174, "TrapIf { m: Teq, rs: 30, rt: 31, code: 5 }"),
    (0x0022_01b6, "TrapIf { m: Tne, rs: 1, rt: 2, code: 6 }"),
    (0x03ff_ffcc, "Stop { m: Syscall, code: 1048575 }"),
    (0x0007_004d, "Stop { m: Break, code: 7169 }"),
    (0x0000_000f, "Sync { stype: 0 }"),
];

/// Of no instruction; rdhwr, mfc0, beql, ll, rotr, jr.hb; sll, clz, blez and lui with a field that
/// should be zero, or the same as another; bltzl, tgei; subu with sa; movf; sync with rd.
const RESERVED: [u32; 16] = [
    0xfc00_0000,
    0x7c03_e83b,
    0x4000_6000,
    0x5000_0001,
    0xc062_0000,
    0x0022_1082,
    0x03e0_0408,
    0x0040_0080,
    0x7062_0020,
    0x1801_0003,
    0x3c22_0001,
    0x0402_0000,
    0x0408_0000,
    0x0062_0863,
    0x0000_0001,
    0x0000_080f,
];

#[test]
fn decodes_words_of_the_assembler(rt: HostRuntime) -> Result<(), AllocError> {
    for (word, text) in ASSEMBLED {
        let want = format!(in rt.alloc(); "Some({text})")?;
        let found = format!(in rt.alloc(); "{:?}", decode(word))?;
        assert_eq!(rt; found.as_str(), want.as_str(), "at {word:08x}");
    }
    for word in RESERVED {
        assert_eq!(rt; decode(word), None, "at {word:08x}");
    }
    Ok(())
}
