// The numbers that the jobs are drawn from.
ghost use Rattle.demonstration.specs.Demonstration.{draw as draw_lem, is_full as is_full_lem, word_count as word_count_lem, word_of as word_of_lem, words_start as words_start_lem};
ghost use Rattle.std.specs.Prelude.{◌≡◌};

// The number that follows a number.
pub(crate) fn draw(x: u32) -> u32
    ensures { result ≡ draw_lem x }
{
    x.wrapping_mul(1_664_525).wrapping_add(1_013_904_223)
}

// The word of a drawn number.
pub(crate) fn word_of(x: u32) -> u32
    ensures { result ≡ word_of_lem x }
{
    x / 256 + 1
}

// Whether a job, counted from 1, fills the buffer.
fn is_full(job: u32) -> bool
    ensures { result ≡ is_full_lem job }
{
    job % 10 == 0
}

// How many words a job has.
pub(crate) fn word_count(job: u32, x: u32) -> u32
    ensures { result ≡ word_count_lem job x }
{
    if is_full(job) {
        64
    } else {
        draw(x) / (1 << 24) % 8 + 1
    }
}

// The number that they are drawn from.
pub(crate) fn words_start(job: u32, x: u32) -> u32
    ensures { result ≡ words_start_lem job x }
{
    if is_full(job) { x } else { draw(x) }
}
