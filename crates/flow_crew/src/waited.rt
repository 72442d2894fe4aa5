//! How a wait ended.
use flow_item::Stop;

/// How a wait, or the work of a worker, ended.
#[derive(Clone, Copy, Debug)]
pub enum Waited {
    /// Nothing is open; where a worker worked, all callers have left too.
    Quiet,
    /// A call was refused, by the first refusal of all calls.
    Halted(Stop),
}
