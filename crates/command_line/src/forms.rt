// What the words of the command line ask for.

/// A command. The names of its files are borrowed from the words.
#[derive(Clone, Copy, PartialEq, Eq)]
pub enum Command<'a> {
    /// Runs each job in simple mode.
    Simple {
        task: &'a str,
        jobs: &'a str,
    },
    /// Judges a task and prints its plans.
    Check {
        task: &'a str,
    },
    /// Runs each job.
    Run {
        task: &'a str,
        jobs: &'a str,
        predictor: PredictorKind,
    },
    /// Prints the instructions of a task.
    List {
        task: &'a str,
    },
    /// Runs the demonstration of this number.
    Demo {
        seed: u32,
    },
}

/// A predictor of branches.
#[derive(Clone, Copy, PartialEq, Eq)]
pub enum PredictorKind {
    Static,
    Bimodal,
    Gshare,
}
