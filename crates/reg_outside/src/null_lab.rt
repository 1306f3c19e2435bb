ghost use Rattle.std.specs.Prelude.{IsOk};

use crate::failed::Failed;
use crate::lab::Lab;
use crate::wire::{Mask, Wire};

/// A wire that accepts every update and tells none.
#[derive(Clone, Copy)]
pub struct NullWire;

impl Wire for NullWire {
    ghost use Rattle.std.specs.Prelude.{None};

    ghost accepted = { λ _. None };

    ghost faults = { λ _. 0 };

    ghost accepts_next = { λ _ _. Unit {0} };

    fn update(&mut self, _chip: u8, _reg: u8, _mask: Mask, _bits: Mask) -> Result<(), Failed>
        ensures { IsOk result }
    {
        Ok(())
    }
}

/// A lab of wires that accept every update. It tells no list.
#[derive(Clone, Copy)]
pub struct NullLab;

impl Lab for NullLab {
    type W = NullWire;

    ghost use Rattle.std.specs.Prelude.{None};

    ghost faults = { λ _ _. 0 };

    ghost list = { λ _ _. None };

    ghost gives_room = { λ _ _ _. Unit {0} };

    fn wire(&mut self, _worker: u16) -> NullWire {
        NullWire
    }

    fn back(&mut self, _worker: u16, _wire: NullWire) {}
}
