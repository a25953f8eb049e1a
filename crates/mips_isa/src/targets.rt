ghost use Rattle.std.specs.Prelude.{◌≡◌, ◌<◌, ◌^◌};
ghost use Rattle.mips_isa.specs.Words.{branch_target, jump_target};

/// Where a taken branch at `pc` with the field `off` goes.
pub fn branch_target(pc: u32, off: u16) -> u32
    ensures { result ≡ branch_target pc off }
{
    let distance = i32::from(off.cast_signed()).cast_unsigned();
    pc.wrapping_add(4).wrapping_add(distance << 2)
}

/// Where a jump at `pc` with the field `target` goes.
pub fn jump_target(pc: u32, target: u32) -> u32
    requires { target < 2 ^ 26 }
    ensures { result ≡ jump_target pc target }
{
    (pc.wrapping_add(4) >> 28 << 28) + (target << 2)
}
