//! The program `visa` over any files and any sink: what each list of words asks for.
#![tactic(auto)]

mod admit;
mod checking;
mod demonstrating;
mod faults;
pub mod laws;
mod lines;
mod listing;
mod logging;
mod plan;
mod predicting;
mod program;
mod refusals;
mod report;
mod running;
mod stages;
mod status;
mod top;

pub use admit::AdmittedTask;
pub use plan::Plan;
pub use program::{ArgumentsFault, run_program};
pub use status::{ImageKind, Role, Status};
pub use top::visa;
