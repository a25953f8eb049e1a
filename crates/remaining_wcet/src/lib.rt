//! What remains of a job, wherever it is broken off, takes at most the bounds that remain: the law over lists, from what the graph, the
//! cuts, the line charges and the longest walks are known to be.
#![tactic(auto)]

pub mod laws;
