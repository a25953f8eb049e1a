//! Lists, plain records, files and sinks: what every crate of `visa` stands on.
#![tactic(auto)]

mod files;
mod host_files;
mod host_sink;
mod image_code;
mod list;
mod mem_files;
mod mem_sink;
mod opening;
mod put_share;
mod read_log;
mod records;
mod reserve;
mod sink;
mod symbols;
mod transfers;

pub use files::{FileFault, Files};
pub use host_files::HostFiles;
pub use host_sink::HostSink;
pub use image_code::code_of;
pub use list::List;
pub use mem_files::{MemFile, MemFiles};
pub use mem_sink::{MemSink, PutFail};
pub use records::{Code, FactLine, Image, Machine, Region, Shape, Span};
pub use reserve::Reserve;
pub use sink::{Sink, SinkFailed};
pub use symbols::Symbols;
