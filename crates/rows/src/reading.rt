pub use crate::call_reading::parse_call;
pub use crate::handles::parse_handle;
pub use crate::numbers::{parse_hex, parse_hex_pair, parse_number, parse_number_pair};
pub use crate::split::{after_prefix, before_suffix, split_first};
