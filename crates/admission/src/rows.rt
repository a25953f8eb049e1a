// Rows of numbers.
ghost use Rattle.std.specs.Prelude.{◌≡◌, ◌<◌, length};
ghost use Rattle.admission.specs.Rows.{row_at as row_at_lem, rows_of};

/// The row of a point.
pub(crate) fn row_at(rows: &[Vec<u64>], point: usize) -> &[u64]
    requires { point < length rows.now }
    ensures { result.now ≡ row_at_lem (rows_of rows.now) point }
{
    rows[point].as_slice()
}
