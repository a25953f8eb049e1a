//! Caches that replace the least recently used line of a set.
#![tactic(auto)]

mod cache;
mod powers;
mod row;
mod table;

pub use cache::Cache;
