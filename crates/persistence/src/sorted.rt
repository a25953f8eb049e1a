// Look-ups in ascending lists.
ghost use Rattle.std.specs.Prelude.{◌≡◌};
ghost use Rattle.std.specs.List.Sorted.{IsNonDecreasing};
ghost use Rattle.cache_lru.specs.Recency.{is_among};

/// Whether a number is in an ascending list.
pub(crate) fn is_in(sorted: &[u64], n: u64) -> bool
    requires { IsNonDecreasing sorted.now }
    ensures { result ≡ is_among n sorted.now }
{
    sorted.binary_search(&n).is_ok()
}

fn is_in_words(sorted: &[u32], n: u32) -> bool
    requires { IsNonDecreasing sorted.now }
    ensures { result ≡ is_among n sorted.now }
{
    sorted.binary_search(&n).is_ok()
}

/// The same in a list of words.
pub(crate) fn is_word_in(sorted: &[u32], n: u64) -> bool
    requires { IsNonDecreasing sorted.now }
    ensures { result ≡ is_among n sorted.now }
{
    match u32::try_from(n) {
        Ok(word) => is_in_words(sorted, word),
        Err(_) => false,
    }
}
