/// A cell of a property's value. A reference is told by the number of its node in tree order, or by R.
#[derive(Clone, Copy)]
pub enum Cell<R = u32> {
    /// A number.
    Num(u32),
    /// A reference by a label.
    Node(R),
}
