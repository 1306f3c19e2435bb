/// What a node has of a property, where a form is asked for.
#[derive(Drop)]
pub enum Form<T> {
    /// The node doesn't have the property.
    Absent,
    /// The property has another form.
    Wrong,
    /// The property says this.
    Is(T),
}
