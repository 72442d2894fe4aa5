//! What the rules ask of kinds and steps.

ghost use Rattle.std.specs.Prelude.{◌≡◌};
ghost use Rattle.flow_mean.specs.Meaning.{is_sequencer};
ghost use Rattle.flow_mean.specs.Determinate.{is_function, is_key_join, is_orderly, is_bounded, may_refuse, is_cancel};

use flow_shape::{Kind, Step};

pub fn is_sequencer(kind: &Kind) -> bool
    ensures { result ≡ is_sequencer kind.now }
{
    match kind {
        Kind::Sequencer => true,
        _ => false,
    }
}

pub fn is_function(kind: &Kind) -> bool
    ensures { result ≡ is_function kind.now }
{
    match kind {
        Kind::Function { .. } => true,
        _ => false,
    }
}

pub fn is_key_join(kind: &Kind) -> bool
    ensures { result ≡ is_key_join kind.now }
{
    match kind {
        Kind::KeyJoin { .. } => true,
        _ => false,
    }
}

/// A node of a kind that determinate documents may have.
pub fn is_orderly(kind: &Kind) -> bool
    ensures { result ≡ is_orderly kind.now }
{
    kind.is_single_push() || is_function(kind) || is_key_join(kind)
}

pub fn is_bounded(kind: &Kind) -> bool
    ensures { result ≡ is_bounded kind.now }
{
    kind.capacity().is_some()
}

/// A node that may refuse over an edge.
pub fn may_refuse(kind: &Kind) -> bool
    ensures { result ≡ may_refuse kind.now }
{
    match kind {
        Kind::Function { reject, .. } => *reject,
        _ => is_bounded(kind),
    }
}

pub fn is_cancel(step: &Step) -> bool
    ensures { result ≡ is_cancel step.now }
{
    match step {
        Step::Cancel => true,
        _ => false,
    }
}
