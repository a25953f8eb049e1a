// What a cycle works on.
use cache_lru::Cache;
use core_window::Window;
use std::collections::VecDeque;

/// The cycles of an entry of the window.
#[derive(Clone, Copy, Debug)]
pub struct Times {
    /// The cycle in which it was fetched.
    pub fetched: u64,
    /// The first cycle in which it may finish; 0 before its issue.
    pub ends: u64,
}

/// The machine at a clock period.
#[derive(Clone, Copy, Debug)]
pub struct Pace {
    /// How many instructions a cycle commits, issues and fetches at most.
    pub width: u32,
    /// How many entries the window has room for.
    pub rob: u32,
    /// Cycles of a miss.
    pub miss: u32,
    /// Cycles of a store beyond the first.
    pub store: u32,
    pub mul: u32,
    pub div: u32,
    /// Whether there is an instruction cache.
    pub has_icache: bool,
}

/// The clock with its window and caches.
#[derive(Debug, Drop)]
pub struct Parts {
    pub pace: Pace,
    pub cycle: u64,
    pub fetch_free: u64,
    pub load_free: u64,
    pub store_free: u64,
    pub arrived: Option<u32>,
    pub window: Window,
    // of each entry
    pub times: VecDeque<Times>,
    pub icache: Cache,
    pub dcache: Cache,
}
