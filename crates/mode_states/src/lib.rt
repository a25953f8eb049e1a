//! The modes of a job, as types: at rest, in fast mode under its watchdogs, draining at a missed checkpoint, and in
//! simple mode. Every job ends by its deadline, whatever the fast core and the predictor do.
#![tactic(auto)]

mod ending;
mod fast_run;
mod idle;
mod kept;
mod running;
mod simple_run;
mod switching;
mod watch;

pub use ending::Ending;
pub use fast_run::{Draining, FastEnd, FastRun};
pub use idle::Idle;
pub use kept::Kept;
pub use simple_run::SimpleRun;
