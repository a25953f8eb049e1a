// A table of two-bit counters.
ghost use Rattle.std.specs.Prelude.{◌≡◌, ◌<◌, slice_index};
ghost use Rattle.predictors.specs.Predicting.{bimodal_place, gshare_place, says_taken, first_table, counted, counters_after, outcomes_after};

/// Counters of 0 to 3 for branches, where the last jump to a register went, and the last eight outcomes of branches, the
/// newest in the lowest bit.
#[derive(Debug, Drop)]
pub struct Table {
    pub counters: [u8; 256],
    pub last: u32,
    pub outcomes: u8,
}

impl Table {
    /// Each counter is 1; nothing was learnt.
    pub(crate) fn new() -> Table
        ensures { result ≡ first_table }
    {
        Table {
            counters: [1; 256],
            last: 0,
            outcomes: 0,
        }
    }

    pub(crate) fn says_taken(&self, place: usize) -> bool
        requires { place < 256 }
        ensures { result ≡ says_taken self.now place }
    {
        self.counters[place] >= 2
    }

    /// Counts an outcome.
    pub(crate) fn count(&mut self, place: usize, taken: bool)
        requires { place < 256 }
        ensures { self.new ≡ record self.old { counters = counters_after taken place self.old.counters } }
    {
        self.counters[place] = counted(taken, self.counters[place]);
    }

    /// Notes an outcome as the newest one.
    pub(crate) fn note(&mut self, taken: bool)
        ensures { self.new ≡ record self.old { outcomes = outcomes_after taken self.old.outcomes } }
    {
        self.outcomes = outcomes_after(taken, self.outcomes);
    }
}

fn counted(taken: bool, n: u8) -> u8
    ensures { result ≡ counted taken n }
{
    if taken {
        n.saturating_add(1).min(3)
    } else {
        n.saturating_sub(1)
    }
}

fn outcomes_after(taken: bool, outcomes: u8) -> u8
    ensures { result ≡ outcomes_after taken outcomes }
{
    ((2 * u32::from(outcomes) + u32::from(taken)) % 256) as u8
}

/// The place of the counter for a branch at an address.
pub(crate) fn bimodal_place(pc: u32) -> usize
    ensures place { result ≡ bimodal_place pc }
    ensures small { result < 256 }
{
    (pc / 4 % 256) as usize
}

/// The same mixed with the last outcomes.
pub(crate) fn gshare_place(outcomes: u8, pc: u32) -> usize
    ensures place { result ≡ gshare_place outcomes pc }
    ensures small { result < 256 }
{
    (((pc / 4) ^ u32::from(outcomes)) % 256) as usize
}
