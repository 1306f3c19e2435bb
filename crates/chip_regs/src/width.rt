/// What a register holds, a mask, or the number in a field: as wide as a register.
pub type Bits = u8;

/// The place of a register in its chip.
pub type Address = u8;

/// How many bits a register has.
pub const WIDTH: u32 = Bits::BITS;

/// How many registers a chip has.
pub const REGISTERS: usize = 256;
