//! The lines of a log, of a check, and of a demonstration's summary.
#![tactic(auto)]

mod demo;
mod put;
mod put_check;
mod put_demo;
mod record;
mod room;
mod trap_names;
mod write;
mod write_check;

pub use demo::Summary;
pub use put::{RUN_HEADER, SIMPLE_HEADER, put_record};
pub use put_check::{CHECK_HEADER, put_bounds, put_plan, put_short};
pub use put_demo::put_summary;
pub use record::{JobMode, JobRecord};
