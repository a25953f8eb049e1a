// What a job tells the history.
ghost use Rattle.std.specs.Prelude.{◌≡◌, ◌≤◌, List, length};
ghost use Rattle.frequency_pick.specs.Counts.{Count, StandsFor};
ghost use Rattle.job_runner.specs.Run.{with_subs};

use frequency_pick::History;

/// Tells the counts of the first sub-tasks, in order.
pub fn tell(history: &mut History, counts: &[u64])
    requires { length counts.now ≤ length history.old }
    ensures subs { length history.new ≡ length history.old }
    ensures stands { (cs : List Count) → StandsFor history.old cs → StandsFor history.new (with_subs 1 counts.now cs) }
{
    for (i, cycles) in counts.iter().enumerate() {
        history.push(i + 1, *cycles);
    }
}
