use chip_regs::Bits;

/// One masked update of a register. `bits` stand at the mask's place.
#[derive(Clone, Copy)]
pub struct Write {
    pub chip: u8,
    pub reg: u8,
    pub mask: Bits,
    pub bits: Bits,
}
