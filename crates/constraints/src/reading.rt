ghost use Rattle.std.specs.Prelude.{◌≡◌, IfOk};
ghost use Rattle.dts_nodes.specs.Forms.{number_at, is_wrong, told_by};
ghost use Rattle.constraints.specs.Prop.{name_of};
ghost use Rattle.constraints.specs.Bounds.{number_or_zero};

use crate::prop::Prop;
use dts_nodes::{Form, number};
use dts_tree::Tree;
use std::alloc::{AllocError, Global};

/// The one number of a property, which is 0 where it isn't given.
pub(crate) fn number_or_zero(
    alloc: Global,
    tree: &Tree,
    node: u32,
    prop: Prop,
) -> Result<u32, AllocError>
    ensures { IfOk result (λ n. n ≡ number_or_zero tree.now node prop) }
{
    match number(alloc, tree, node, prop.name())? {
        Form::Absent => Ok(0),
        Form::Wrong => Ok(0),
        Form::Is(n) => Ok(n),
    }
}

/// What the property says, where it has the form.
pub(crate) fn told<T>(form: Form<T>) -> Option<T>
    ensures { result ≡ told_by form }
{
    match form {
        Form::Absent => None,
        Form::Wrong => None,
        Form::Is(read) => Some(read),
    }
}

/// The property is there in another form.
pub(crate) fn is_wrong<T>(form: &Form<T>) -> bool
    ensures { result ≡ is_wrong form.now }
{
    match form {
        Form::Absent => false,
        Form::Wrong => true,
        Form::Is(_) => false,
    }
}
