// Numbers within limits.
ghost use Rattle.std.specs.Prelude.{◌≡◌, true, cond, nat_eq, nat_le, ℤ, Some, None, [], ◌∷◌, ◌<◌};
ghost use Rattle.std.specs.Int.{is_in_range};
ghost use Rattle.std.specs.List.{list_any, list_all};
ghost use Rattle.text_fields.specs.Lines.{is_graphic as is_graphic_lem};
ghost use Rattle.task_text.specs.Table.{is_shape as is_shape_lem, is_strided as is_strided_lem, is_name as is_name_lem};

use text_fields::is_graphic;

// A number, if it is from low to high.
pub(crate) fn number_in(n: u64, low: u64, high: u64) -> Option<u64>
    ensures { result ≡ cond (is_in_range low high n) (Some n) None }
{
    if low <= n && n <= high { Some(n) } else { None }
}

// The same, of a word.
pub(crate) fn word_in(n: u64, low: u32, high: u32) -> Option<u32>
    ensures { result ≡ cond (is_in_range low high n) (Some n) None }
{
    if u64::from(low) <= n && n <= u64::from(high) {
        Some(n as u32)
    } else {
        None
    }
}

// 1, 2 or 4.
pub(crate) fn is_width(n: u32) -> bool
    ensures { result ≡ list_any (λ x. nat_eq n x) (1 ∷ 2 ∷ 4 ∷ []) }
{
    n == 1 || n == 2 || n == 4
}

fn is_line(n: u32) -> bool
    ensures { result ≡ list_any (λ x. nat_eq n x) (8 ∷ 16 ∷ 32 ∷ 64 ∷ []) }
{
    n == 8 || n == 16 || n == 32 || n == 64
}

// A power of two up to 1024.
fn is_sets(n: u32) -> bool
    ensures { result ≡ list_any (λ x. nat_eq n x) (1 ∷ 2 ∷ 4 ∷ 8 ∷ 16 ∷ 32 ∷ 64 ∷ 128 ∷ 256 ∷ 512 ∷ 1024 ∷ []) }
{
    let sizes: [u32; 11] = [1, 2, 4, 8, 16, 32, 64, 128, 256, 512, 1024];
    sizes.iter().any(|x| n == *x)
}

fn is_ways(n: u32) -> bool
    ensures { result ≡ is_in_range 1 8 n }
{
    1 <= n && n <= 8
}

#[tactic(auto, unfolding(crate::specs::Table::is_shape))]
pub(crate) fn is_shape(sets: u32, ways: u32, line: u32) -> bool
    ensures { result ≡ is_shape_lem sets ways line }
{
    is_sets(sets) && (is_ways(ways) && is_line(line))
}

fn are_graphic(bytes: &[u8]) -> bool
    ensures { result ≡ list_all is_graphic_lem bytes.now }
{
    bytes.iter().all(|b| is_graphic(*b))
}

#[tactic(auto, unfolding(crate::specs::Table::is_name))]
pub(crate) fn is_name(bytes: &[u8]) -> bool
    ensures { result ≡ is_name_lem bytes.now }
{
    !bytes.is_empty() && are_graphic(bytes)
}
