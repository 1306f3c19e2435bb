ghost use Rattle.std.specs.Prelude.{◌≡◌, nat_le, option_map};
ghost use Rattle.linear_range.specs.Pick.{pair_of};
ghost use Rattle.board.specs.Table.{passing};
ghost use Rattle.board.specs.Rail.{mode_numbered};

use crate::constraints::Constraints;
use crate::desc::Desc;
use crate::names::Name;
use crate::part::Part;
use crate::rail_id::RailId;
use chip_regs::{Bits, Field, Regs};
use linear_range::Pick;
use load_modes::Mode;

/// A rail: how its chip makes it, what the board asks of it, and the rail that supplies it.
#[derive(Drop)]
pub struct Rail {
    /// No other rail of the board has it.
    pub name: Name,
    pub desc: Desc,
    pub limits: Constraints,
    /// The rail that feeds this one.
    pub supply: Option<RailId>,
    /// The group of rails that it is coupled with, or one of its own.
    pub group: u16,
    /// Both bounds are given, and the least is below the greatest.
    pub changeable: bool,
    /// The value that a rail which isn't changeable has after the load, in µV.
    pub kept_uv: u32,
}

impl Rail {
    ghost use Rattle.std.specs.Prelude.{◌≡◌, Some, true, IfSome, filter, length, nat_eq, option_map};
    ghost use Rattle.std.specs.List.{list_any};
    ghost use Rattle.linear_range.specs.Values.{pick_high, pick_low};
    ghost use Rattle.linear_range.specs.Pick.{pair_of};
    ghost use Rattle.board.specs.Table.{uv_of};
    ghost use Rattle.board.specs.Desc.{ArePlaced};
    ghost use Rattle.board.specs.Rail.{uv, is_on, mode, is_within, choices, allowed, least as least_of, part_field};

    /// Where the rail stands, in µV.
    pub fn uv(&self, regs: &Regs) -> u32
        requires { ArePlaced (length regs.now) self.now.desc }
        ensures { result ≡ uv self.now regs.now }
    {
        match &self.desc.selector {
            None => self.kept_uv,
            Some(field) => {
                let selector = u16::from(regs.get(field));
                self.desc.table.value(selector).unwrap_or(self.kept_uv)
            }
        }
    }

    /// Whether the rail is on.
    pub fn is_on(&self, regs: &Regs) -> bool
        requires { ArePlaced (length regs.now) self.now.desc }
        ensures { result ≡ is_on self.now regs.now }
    {
        regs.get(&self.desc.enable) == 1
    }

    /// The mode that the rail is in; a rail without a mode field is in the normal one.
    pub fn mode(&self, regs: &Regs) -> Mode
        requires { ArePlaced (length regs.now) self.now.desc }
        ensures { result ≡ mode self.now regs.now }
    {
        match &self.desc.modes {
            None => Mode::Normal,
            Some(field) => mode_numbered(regs.get(field)),
        }
    }

    /// The nearest allowed value not below `uv` µV, at its first selector. Of a rail that can't change
    /// the selector is 0 and tells nothing.
    pub fn at_or_above(&self, uv: u32) -> Option<Pick>
        ensures pick { option_map pair_of result ≡ pick_high (choices self.now) uv }
        ensures value { IfSome result (λ pick. self.now.changeable ≡ true → uv_of self.now.desc.table pick.sel ≡ Some pick.uv) }
    {
        if !self.changeable {
            not_below(Some(self.kept()), uv)
        } else if let Some((least, greatest)) = self.limits.bounds {
            not_above(self.desc.table.selector_high(uv.max(least)), greatest)
        } else {
            self.desc.table.selector_high(uv)
        }
    }

    /// The nearest allowed value not above `uv` µV, at its first selector. Of a rail that can't change
    /// the selector is 0 and tells nothing.
    pub fn at_or_below(&self, uv: u32) -> Option<Pick>
        ensures pick { option_map pair_of result ≡ pick_low (choices self.now) uv }
        ensures value { IfSome result (λ pick. self.now.changeable ≡ true → uv_of self.now.desc.table pick.sel ≡ Some pick.uv) }
    {
        if !self.changeable {
            not_above(Some(self.kept()), uv)
        } else if let Some((least, greatest)) = self.limits.bounds {
            not_below(self.desc.table.selector_low(uv.min(greatest)), least)
        } else {
            self.desc.table.selector_low(uv)
        }
    }

    /// Whether the rail may stand at `uv` µV.
    pub fn allows(&self, uv: u32) -> bool
        ensures { result ≡ list_any (nat_eq uv) (allowed self.now) }
    {
        match self.at_or_above(uv) {
            Some(pick) => uv == pick.uv,
            None => false,
        }
    }

    /// The field of a part, where the rail has one.
    pub fn field(&self, part: Part) -> Option<Field>
        ensures { result ≡ part_field part self.now }
    {
        match part {
            Part::Selector => self.desc.selector,
            Part::Enable => Some(self.desc.enable),
            Part::ModePart => self.desc.modes,
            Part::SuspendEnable => self.desc.suspend_enable,
            Part::SuspendSelector => self.desc.suspend_selector,
        }
    }

    /// The least allowed value within `least..=greatest` µV.
    pub fn least_within(&self, least: u32, greatest: u32) -> Option<u32>
        ensures { result ≡ least_of (filter (is_within (Some (least, greatest))) (allowed self.now)) }
    {
        let pick = not_above(self.at_or_above(least), greatest)?;
        Some(pick.uv)
    }

    /// The one value of a rail that isn't changeable.
    fn kept(&self) -> Pick
        ensures { pair_of result ≡ (0, self.now.kept_uv) }
    {
        Pick {
            sel: 0,
            uv: self.kept_uv,
        }
    }
}

/// The mode of a number in a mode field.
fn mode_numbered(number: Bits) -> Mode
    ensures { result ≡ mode_numbered number }
{
    match number {
        0 => Mode::Fast,
        2 => Mode::Idle,
        3 => Mode::Standby,
        _ => Mode::Normal,
    }
}

/// The pick, where it isn't below `least` µV.
fn not_below(pick: Option<Pick>, least: u32) -> Option<Pick>
    ensures { option_map pair_of result ≡ passing (nat_le least) (option_map pair_of pick) }
{
    pick.filter(|pick| pick.uv >= least)
}

/// The pick, where it isn't above `greatest` µV.
fn not_above(pick: Option<Pick>, greatest: u32) -> Option<Pick>
    ensures { option_map pair_of result ≡ passing (λ uv. nat_le uv greatest) (option_map pair_of pick) }
{
    pick.filter(|pick| pick.uv <= greatest)
}
