use arrayvec::ArrayString;

/// The name of a rail: at most 64 bytes.
pub type Name = ArrayString<64>;

/// The name of a worker's handle: at most 16 bytes.
pub type Handle = ArrayString<16>;
