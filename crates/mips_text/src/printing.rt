// Printing instructions.
ghost use Rattle.std.specs.Prelude.{◌≡◌, [], ◌∷◌, decimal};
ghost use Rattle.std.specs.Fmt.{signed_decimal};
ghost use Rattle.std.specs.Int.{cast_signed, w16};
ghost use Rattle.text_fields.specs.Numbers.{hex_text};
ghost use Rattle.mips_isa.specs.Fits.{FieldsFit};
ghost use Rattle.mips_text.specs.Operands as texts;
ghost use Rattle.mips_text.specs.Operands.{instr_text, pieces_text, piece_text};
ghost use Rattle.mips_text.specs.Room.{joined};

use crate::InstrText;
use crate::mnemonics::name;
use crate::piece::Piece;
use itoa::Buffer;
use mips_isa::{HiLoOp, ImmOp, Instr, R3Op, branch_target, jump_target};
use text_fields::hex_digits;

/// The text of an instruction at an address: its mnemonic, a space, and its operands, with registers as `$n`, canonical decimals, and
/// targets as eight hexadecimal digits. Takes no memory.
pub fn print_instr(i: Instr, at: u32) -> InstrText
    requires { FieldsFit i }
    ensures { result ≡ instr_text i at }
{
    let mut text = InstrText::new();
    text.push_all(name(i));
    text.push(b' ');
    put_operands(&mut text, i, at);
    text
}

fn put_decimal(text: &mut InstrText, n: u32)
    ensures { text.new ≡ joined text.old (decimal n) }
{
    let mut buffer = Buffer::new();
    text.push_all(buffer.format(n).as_bytes());
}

fn put_signed(text: &mut InstrText, bits: u16)
    ensures { text.new ≡ joined text.old (signed_decimal (cast_signed w16 bits)) }
{
    let mut buffer = Buffer::new();
    text.push_all(buffer.format(bits.cast_signed()).as_bytes());
}

fn put_register(text: &mut InstrText, n: u8)
    ensures { text.new ≡ joined text.old (36 ∷ decimal n) }
{
    text.push(b'$');
    put_decimal(text, u32::from(n));
}

fn put_address(text: &mut InstrText, a: u32)
    ensures { text.new ≡ joined text.old (hex_text a) }
{
    text.push_all(&hex_digits(a));
}

#[tactic(auto, unfolding(crate::specs::Operands::piece_text))]
fn put(text: &mut InstrText, piece: Piece)
    ensures { text.new ≡ joined text.old (piece_text piece) }
{
    match piece {
        Piece::Comma => text.push(b','),
        Piece::Open => text.push(b'('),
        Piece::Close => text.push(b')'),
        Piece::Register(n) => put_register(text, n),
        Piece::Number(n) => put_decimal(text, n),
        Piece::Signed(bits) => put_signed(text, bits),
        Piece::Address(a) => put_address(text, a),
    }
}

fn put_all(text: &mut InstrText, pieces: &[Piece])
    ensures { text.new ≡ joined text.old (pieces_text pieces.now) }
{
    let _len = text.len();
    for piece in pieces {
        put(text, *piece);
    }
}

fn put_two(text: &mut InstrText, a: Piece, b: Piece)
    ensures { text.new ≡ joined text.old (pieces_text (texts.two a b)) }
{
    put_all(text, &[a, Piece::Comma, b]);
}

fn put_three(text: &mut InstrText, a: Piece, b: Piece, c: Piece)
    ensures { text.new ≡ joined text.old (pieces_text (texts.three a b c)) }
{
    put_all(text, &[a, Piece::Comma, b, Piece::Comma, c]);
}

fn put_based(text: &mut InstrText, a: Piece, off: u16, base: u8)
    ensures { text.new ≡ joined text.old (pieces_text (texts.based a off base)) }
{
    put_all(
        text,
        &[
            a,
            Piece::Comma,
            Piece::Signed(off),
            Piece::Open,
            Piece::Register(base),
            Piece::Close,
        ],
    );
}

fn put_r3(text: &mut InstrText, m: R3Op, rs: u8, rt: u8, rd: u8)
    ensures { text.new ≡ joined text.old (pieces_text (texts.r3_operands m rs rt rd)) }
{
    let (s, t, d) = (
        Piece::Register(rs),
        Piece::Register(rt),
        Piece::Register(rd),
    );
    match m {
        R3Op::Sllv | R3Op::Srlv | R3Op::Srav => put_three(text, d, t, s),
        _ => put_three(text, d, s, t),
    }
}

fn put_hi_lo(text: &mut InstrText, m: HiLoOp, rs: u8, rd: u8)
    ensures { text.new ≡ joined text.old (pieces_text (texts.hi_lo_operand m rs rd)) }
{
    match m {
        HiLoOp::Mfhi | HiLoOp::Mflo => put_all(text, &[Piece::Register(rd)]),
        HiLoOp::Mthi | HiLoOp::Mtlo => put_all(text, &[Piece::Register(rs)]),
    }
}

fn immediate(m: ImmOp, imm: u16) -> Piece
    ensures { result ≡ texts.immediate m imm }
{
    match m {
        ImmOp::Andi | ImmOp::Ori | ImmOp::Xori => Piece::Number(u32::from(imm)),
        _ => Piece::Signed(imm),
    }
}

#[tactic(auto, unfolding(crate::specs::Operands::operands))]
fn put_operands(text: &mut InstrText, i: Instr, at: u32)
    requires { FieldsFit i }
    ensures { text.new ≡ joined text.old (pieces_text (texts.operands i at)) }
{
    match i {
        Instr::R3 { m, rs, rt, rd } => put_r3(text, m, rs, rt, rd),
        Instr::Shift { rt, rd, sa, .. } => put_three(
            text,
            Piece::Register(rd),
            Piece::Register(rt),
            Piece::Number(u32::from(sa)),
        ),
        Instr::Acc { rs, rt, .. } => put_two(text, Piece::Register(rs), Piece::Register(rt)),
        Instr::HiLo { m, rs, rd } => put_hi_lo(text, m, rs, rd),
        Instr::Count { rs, rd, .. } => put_two(text, Piece::Register(rd), Piece::Register(rs)),
        Instr::Imm { m, rs, rt, imm } => put_three(
            text,
            Piece::Register(rt),
            Piece::Register(rs),
            immediate(m, imm),
        ),
        Instr::Lui { rt, imm } => put_two(text, Piece::Register(rt), Piece::Number(u32::from(imm))),
        Instr::Load { rs, rt, off, .. } => put_based(text, Piece::Register(rt), off, rs),
        Instr::Store { rs, rt, off, .. } => put_based(text, Piece::Register(rt), off, rs),
        Instr::Pref { rs, hint, off } => put_based(text, Piece::Number(u32::from(hint)), off, rs),
        Instr::Branch2 { rs, rt, off, .. } => {
            put_three(
                text,
                Piece::Register(rs),
                Piece::Register(rt),
                Piece::Address(branch_target(at, off)),
            )
        }
        Instr::Branch1 { rs, off, .. } => put_two(
            text,
            Piece::Register(rs),
            Piece::Address(branch_target(at, off)),
        ),
        Instr::Jump { target, .. } => put_all(text, &[Piece::Address(jump_target(at, target))]),
        Instr::Jr { rs } => put_all(text, &[Piece::Register(rs)]),
        Instr::Jalr { rs, rd } => put_two(text, Piece::Register(rd), Piece::Register(rs)),
        Instr::TrapIf { rs, rt, code, .. } => put_three(
            text,
            Piece::Register(rs),
            Piece::Register(rt),
            Piece::Number(code),
        ),
        Instr::Stop { code, .. } => put_all(text, &[Piece::Number(code)]),
        Instr::Sync { stype } => put_all(text, &[Piece::Number(u32::from(stype))]),
    }
}
