//! Task texts and jobs texts.
#![tactic(auto)]

mod address_lines;
mod cache_lines;
mod code_lines;
mod fact_keys;
mod fact_lines;
mod fault;
mod jobs;
mod jobs_read;
mod jobs_reader;
mod keyword;
pub mod laws;
mod limits;
mod line_room;
mod machine_lines;
mod read;
mod reader;
mod row;
mod task;
mod task_parts;
mod words;
mod writer;
mod writing;

pub use fault::{JobsFault, LineKind, TaskFault};
pub use jobs::{Jobs, Past, Piece};
pub use jobs_read::read_jobs;
pub use line_room::LineRoom;
pub use read::read_task;
pub use row::{CoreRow, Extent, Keyword, MemoryRow, Row, TimeRow, WordsRow};
pub use task::{Source, Task};
pub use words::words_image;
pub use writer::task_text;
