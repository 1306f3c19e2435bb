ghost use Rattle.std.specs.Prelude.{◌<◌, IfSome};
ghost use Rattle.chip_regs.specs.Width.{chip_registers};
ghost use Rattle.board.specs.declared.part.Part.{Part};
ghost use Rattle.board.specs.Rail.{part_field};
ghost use Rattle.plain_board.specs.Untied.{HoldFields};

use board::{Board, Rail};
use chip_regs::{Field, Regs};

/// A field lies in one of a chip's registers.
fn has_place(field: Option<Field>)
    ensures { IfSome field (λ f. f.reg < chip_registers) }
{
    if let Some(field) = field {
        let _reg = field.reg;
    }
}

/// Each field of a rail does.
fn has_places(rail: &Rail)
    ensures { (part : Part) → IfSome (part_field part rail.now) (λ f. f.reg < chip_registers) }
{
    has_place(rail.desc.selector);
    has_place(Some(rail.desc.enable));
    has_place(rail.desc.modes);
    has_place(rail.desc.suspend_enable);
    has_place(rail.desc.suspend_selector);
}

/// The registers of a board's chips hold its rails' fields, since a register's number is a byte.
pub fn hold_fields(board: &Board, regs: &Regs)
    ensures { HoldFields board.now regs.now }
{
    let _chips = regs.chips();
    for rail in board.rails.as_slice() {
        has_places(rail);
    }
}
