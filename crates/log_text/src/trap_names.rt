// The names of the traps in a log.
ghost use Rattle.std.specs.Prelude.{◌≡◌, ◌≤◌, length};
ghost use Rattle.log_text.specs.Lines.{trap_name as trap_name_lem};

use mips_ref::TrapKind;

/// A trap's name in small letters, its words joined by dashes. Takes no memory.
pub fn trap_name(kind: TrapKind) -> &'static [u8]
    ensures text { result.now ≡ trap_name_lem kind }
    ensures short { length result.now ≤ 15 }
{
    match kind {
        TrapKind::AddressLoad => b"address-load",
        TrapKind::AddressStore => b"address-store",
        TrapKind::Overflow => b"overflow",
        TrapKind::TrapInstr => b"trap-instr",
        TrapKind::Break => b"break",
        TrapKind::Syscall => b"syscall",
        TrapKind::Reserved => b"reserved",
        TrapKind::FetchFault => b"fetch-fault",
        TrapKind::ReturnMismatch => b"return-mismatch",
        TrapKind::ReturnFull => b"return-full",
        TrapKind::OutputFull => b"output-full",
    }
}
