use crate::kind::Kind;
use crate::values::Values;
use chip_regs::Bits;

/// A rail as its row in a data sheet has it: the name of its node, the pin that supplies it, its
/// values, the register and the mask of its selector, and its kind.
#[derive(Clone, Copy)]
pub(crate) struct Row(
    pub(crate) &'static str,
    pub(crate) &'static str,
    pub(crate) Values,
    pub(crate) u8,
    pub(crate) Bits,
    pub(crate) Kind,
);
