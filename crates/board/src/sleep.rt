/// What a rail is to be while the board is suspended, after a node `regulator-state-..` of the
/// binding `regulator.yaml`.
#[derive(Clone, Copy)]
pub struct Sleep {
    /// On or off (`regulator-on-in-suspend`, `regulator-off-in-suspend`); none where either will do.
    pub on: Option<bool>,
    /// The value, in µV (`regulator-suspend-microvolt`).
    pub uv: Option<u32>,
}
