// Quotients and remainders by powers of two.
ghost use Rattle.std.specs.Prelude.{◌≡◌, ◌<◌, ◌^◌, ◌/◌, ◌%◌, ℕ};

/// The exponent of a power of two.
pub(crate) fn exponent(n: u32) -> u32
    requires { (k : ℕ) × (n ≡ 2 ^ k) }
    ensures is { n ≡ 2 ^ result }
    ensures small { result < 32 }
{
    n.trailing_zeros()
}

pub(crate) fn quotient(n: u32, bits: u32) -> u32
    requires { bits < 32 }
    ensures { result ≡ n / 2 ^ bits }
{
    n >> bits
}

pub(crate) fn remainder(n: u32, bits: u32) -> u32
    requires { bits < 32 }
    ensures { result ≡ n % 2 ^ bits }
{
    n & ((1 << bits) - 1)
}
