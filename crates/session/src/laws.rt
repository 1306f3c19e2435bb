//! What follows from the definitions.
ghost use Rattle.session.specs.Laws.{SessionsHaveNoFault, OneFault, OneSession};

use board_graph::laws::one_order;
use dts_tree::laws::one_outcome;

/// No session has a fault. A text has at most one first fault, and one meaning.
pub fn one_reading()
    ensures sessions_have_no_fault { SessionsHaveNoFault }
    ensures one_fault { OneFault }
    ensures one_session { OneSession }
{
    one_order();
    one_outcome();
}
