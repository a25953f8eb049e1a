/// What jobs run in: simple mode alone, or fast mode with a switch to simple mode where a checkpoint is missed.
#[derive(Clone, Copy, Debug, PartialEq, Eq)]
pub enum Mode {
    Simple,
    Fast,
}
