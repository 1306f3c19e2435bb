ghost use Rattle.std.specs.Prelude.{◌≡◌, ◌↔◌, false, IsNone, IfSome};
ghost use Rattle.load_modes.specs.declared.mode.Mode.{Mode};
ghost use Rattle.load_modes.specs.Modes.{bit_of, bits_of, greatest_of, suffices, mode_of_load, IsLowest};

use crate::modes::Modes;
use bitflags::Flags;

/// How a rail runs, from the highest power to the lowest.
#[derive(Clone, Copy, Debug, PartialEq, Eq)]
pub enum Mode {
    Fast,
    Normal,
    Idle,
    Standby,
}

impl Mode {
    /// The set of this mode alone.
    pub fn flag(self) -> Modes
        ensures { bits_of result ≡ bit_of self }
    {
        match self {
            Mode::Fast => Modes::FAST,
            Mode::Normal => Modes::NORMAL,
            Mode::Idle => Modes::IDLE,
            Mode::Standby => Modes::STANDBY,
        }
    }

    fn greatest(self, loads: &[u32; 4]) -> u32
        ensures { result ≡ greatest_of loads.now self }
    {
        let [fast, normal, idle, standby] = *loads;
        match self {
            Mode::Fast => fast,
            Mode::Normal => normal,
            Mode::Idle => idle,
            Mode::Standby => standby,
        }
    }

    #[tactic(auto, unfolding(crate::specs::Modes::suffices))]
    fn suffices(self, loads: &[u32; 4], allowed: Modes, sum: u64) -> bool
        ensures { result ≡ suffices loads.now allowed sum self }
    {
        allowed.contains(self.flag()) && sum <= u64::from(self.greatest(loads))
    }
}

/// The mode of lowest power that is allowed and whose greatest load is not below the sum of the
/// loads, in µA; `None` exactly where no allowed mode is enough. `greatest` has the greatest load
/// of each mode in µA, in the order fast, normal, idle, standby.
///
/// With the greatest loads 3000000, 1000000, 50000 and 5000, all modes allowed, a sum of 5000 is
/// carried in standby, 5001 in idle, and no mode carries 3000001.
pub fn mode_for(greatest: &[u32; 4], allowed: Modes, sum: u64) -> Option<Mode>
    ensures exact { result ≡ mode_of_load greatest.now allowed sum }
    ensures lowest { IfSome result (IsLowest greatest.now allowed sum) }
    ensures none { IsNone result ↔ ((mode : Mode) → suffices greatest.now allowed sum mode ≡ false) }
{
    first_that_suffices(greatest, allowed, sum)
}

#[tactic(auto, unfolding(crate::specs::Modes::mode_of_load))]
fn first_that_suffices(greatest: &[u32; 4], allowed: Modes, sum: u64) -> Option<Mode>
    ensures { result ≡ mode_of_load greatest.now allowed sum }
{
    [Mode::Standby, Mode::Idle, Mode::Normal, Mode::Fast]
        .iter()
        .copied()
        .find(|mode| mode.suffices(greatest, allowed, sum))
}
