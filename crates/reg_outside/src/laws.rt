//! What holds of every wire in a plan. The call does nothing; what it ensures is the law.

ghost use Rattle.reg_outside.specs.Planned.{CountIsInner};

use crate::wire::Wire;

/// Where no planned number was tried, a wire in a plan has the faults of the wire inside. So a
/// fault that is counted then is one of the wire inside.
pub fn count_is_inner<W: Wire>()
    ensures { CountIsInner W.faults }
{}
