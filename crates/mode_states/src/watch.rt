// How far a job in fast mode has come along its cuts.
ghost use Rattle.std.specs.Prelude.{◌≡◌, ◌≤◌, ◌<◌, [], ◌∷◌, ◌++◌, length, slice_get, vec_capacity};
ghost use Rattle.mode_states.specs.Fits.{IsWatching, progress_of};
ghost use Rattle.mode_states.specs.Progress.{all_passed, ended_in, is_cut, passed};

/// The cycles of each sub-task that has ended, and how many cycles were performed when the last of them ended.
#[derive(Drop)]
pub struct Watch {
    pub counts: Vec<u64>,
    pub last: u64,
}

// Whether a pc is the cut at this place.
fn is_cut_at(cuts: &[u32], place: usize, pc: u32) -> bool
    ensures { result ≡ is_cut (slice_get cuts.now place) pc }
{
    match cuts.get(place) {
        None => false,
        Some(cut) => *cut == pc,
    }
}

// Puts a number last, where there is room.
fn put(counts: &mut Vec<u64>, count: u64)
    requires { length counts.old.items < vec_capacity counts.old }
    ensures items { counts.new.items ≡ counts.old.items ++ count ∷ [] }
    ensures capacity { vec_capacity counts.new ≡ vec_capacity counts.old }
{
    counts.push_reserved(count);
}

impl Watch {
    /// The place of the sub-task under way, from 0.
    pub fn sub(&self) -> usize
        ensures { result ≡ length self.now.counts.items }
    {
        self.counts.len()
    }

    /// The sub-task under way ends in this cycle.
    pub fn end_sub(&mut self, cycle: u64)
        requires last { self.old.last ≤ cycle }
        requires room { length self.old.counts.items < vec_capacity self.old.counts }
        ensures progress { progress_of self.new ≡ ended_in cycle (progress_of self.old) }
        ensures capacity { vec_capacity self.new.counts ≡ vec_capacity self.old.counts }
    {
        put(&mut self.counts, cycle - self.last);
        self.last = cycle;
    }

    // A pc after a commit of this cycle.
    fn pass(&mut self, cuts: &[u32], cycle: u64, pc: u32)
        requires { IsWatching (length cuts.now) cycle self.old }
        ensures progress { progress_of self.new ≡ passed cuts.now cycle (progress_of self.old) pc }
        ensures watching { IsWatching (length cuts.now) cycle self.new }
    {
        if is_cut_at(cuts, self.sub(), pc) {
            self.end_sub(cycle);
        }
    }

    /// The pcs after the commits of this cycle, in order.
    pub fn pass_all(&mut self, cuts: &[u32], cycle: u64, pcs: &[u32])
        requires { IsWatching (length cuts.now) cycle self.old }
        ensures progress { progress_of self.new ≡ all_passed cuts.now cycle (progress_of self.old) pcs.now }
        ensures watching { IsWatching (length cuts.now) cycle self.new }
    {
        for pc in pcs {
            self.pass(cuts, cycle, *pc);
        }
    }
}
