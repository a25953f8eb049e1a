//! Tests of the out-of-order window, its clock and the predictors: what no clause of theirs says.
#![tactic(auto)]

#[cfg(test)]
mod cycles;
#[cfg(test)]
mod window;
#[cfg(test)]
mod window_at_random;
