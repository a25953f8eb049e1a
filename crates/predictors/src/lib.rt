//! Predictors of branches: what follows a control instruction and its delay slot.
#![tactic(auto)]

mod branches;
mod builtin;
mod predictor;
mod table;

pub use builtin::{Builtin, PredictorKind};
pub use predictor::Predictor;
pub use table::Table;
