// The summary of a demonstration.

/// What a demonstration comes to: its seed; how many jobs ran, how many of them ended in fast mode, and in how many a
/// checkpoint was missed; the greatest end of a job (ps after its release); and the sum of all words of output, modulo
/// 2^32.
#[derive(Clone, Copy, Debug, PartialEq, Eq)]
pub struct Summary {
    pub seed: u32,
    pub jobs: u64,
    pub fast: u64,
    pub missed: u64,
    pub latest_ps: u64,
    pub sum: u32,
}
