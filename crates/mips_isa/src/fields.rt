ghost use Rattle.std.specs.Prelude.{◌≡◌};
ghost use Rattle.mips_isa.specs.Fields.{fields_of, part_of};

/// The fields of an instruction word, each under its name in the manual.
#[derive(Clone, Copy, Debug, PartialEq, Eq)]
pub struct Fields {
    pub op: u8,
    pub rs: u8,
    pub rt: u8,
    pub rd: u8,
    pub sa: u8,
    pub funct: u8,
    /// The low sixteen bits: `imm`, `off`.
    pub half: u16,
    /// The low 26 bits.
    pub target: u32,
    /// The code of a trap, bits 15 to 6.
    pub trap_code: u32,
    /// The code of a stop, bits 25 to 6.
    pub stop_code: u32,
}

/// Splits a word into its fields.
pub fn split(word: u32) -> Fields
    ensures { result ≡ fields_of word }
{
    Fields {
        op: (word >> 26) as u8,
        rs: (word >> 21 & 31) as u8,
        rt: (word >> 16 & 31) as u8,
        rd: (word >> 11 & 31) as u8,
        sa: (word >> 6 & 31) as u8,
        funct: (word & 63) as u8,
        half: (word & 0xffff) as u16,
        target: word & 0x03ff_ffff,
        trap_code: word >> 6 & 0x3ff,
        stop_code: word >> 6 & 0xf_ffff,
    }
}

/// The number that tells the members of one op apart.
pub fn part(f: Fields) -> u8
    ensures { result ≡ part_of f.op f.rt f.funct }
{
    match f.op {
        0x00 | 0x1c => f.funct,
        0x01 | 0x06 | 0x07 => f.rt,
        _ => 0,
    }
}
