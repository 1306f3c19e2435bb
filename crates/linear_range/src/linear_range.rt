ghost use Rattle.std.specs.Prelude.{◌≡◌, ◌+◌, ◌-◌, ◌/◌, ◌^◌, ◌<◌, ◌≤◌, ◌↔◌, [], ◌∷◌, IsTrue};
ghost use Rattle.std.specs.Option.{option_map, option_and_then};
ghost use Rattle.std.specs.Int.{div_ceil};
ghost use Rattle.linear_range.specs.Values.{value_in, values, pick_high, pick_low};
ghost use Rattle.linear_range.specs.Pick.{pair_of};
ghost use Rattle.linear_range.specs.LinearRange.{greatest_of, IsFitting, is_reversed, is_too_high, share_selector};

use crate::Pick;

/// Selectors `min_sel` to `max_sel` in a row: the first has `min` µV, each next one `step` µV more.
///
/// The range 600000 µV from selector 0 to 127 by 6250 µV ends at 1393750 µV.
#[derive(Clone, Copy, Default)]
pub struct LinearRange {
    /// The value of `min_sel`, in µV.
    pub min: u32,
    pub min_sel: u16,
    pub max_sel: u16,
    /// The difference of two neighbouring values, in µV; at 0 all selectors have one value.
    pub step: u32,
}

impl LinearRange {
    /// Whether the range has a selector, and all its values are at most 4294967295 µV.
    pub fn fits(&self) -> bool
        ensures { IsTrue result ↔ IsFitting self.now }
    {
        self.min_sel <= self.max_sel && self.greatest() <= u64::from(u32::MAX)
    }

    /// The value of a selector in µV, where the range has the selector.
    pub fn value(&self, sel: u16) -> Option<u32>
        requires { IsFitting self.now }
        ensures { result ≡ value_in self.now sel }
    {
        if sel < self.min_sel || self.max_sel < sel {
            return None;
        }
        Some(self.min + u32::from(sel - self.min_sel) * self.step)
    }

    /// The selector of the least value not below `uv` µV, or `None` where the range ends below it.
    ///
    /// In the range 600000 µV from selector 0 to 127 by 6250 µV, 900001 µV has selector 49, that of
    /// 906250 µV. Where the step is 0 and the one value is in reach, it is the last selector, as in
    /// Linux's `lib/linear_ranges.c`; a table gives the first.
    pub fn selector_high(&self, uv: u32) -> Option<u16>
        requires { IsFitting self.now }
        ensures above { greatest_of self.now < uv → result ≡ None }
        ensures below { uv < self.now.min → result ≡ Some self.now.min_sel }
        ensures flat { self.now.min ≤ uv → uv ≤ greatest_of self.now → self.now.step ≡ 0 → result ≡ Some self.now.max_sel }
        ensures rounded_up { self.now.min ≤ uv → uv ≤ greatest_of self.now → 0 < self.now.step
            → result ≡ Some (self.now.min_sel + div_ceil (uv - self.now.min) self.now.step) }
        ensures least_value { option_and_then (value_in self.now) result ≡ option_map (λ p. p.1) (pick_high (values (self.now ∷ [])) uv) }
        ensures first_selector { 0 < self.now.step → result ≡ option_map (λ p. p.0) (pick_high (values (self.now ∷ [])) uv) }
    {
        if u64::from(uv) > self.greatest() {
            return None;
        }
        if uv < self.min {
            return Some(self.min_sel);
        }
        if self.step == 0 {
            return Some(self.max_sel);
        }
        let steps = (uv - self.min).div_ceil(self.step);
        Some(self.min_sel + steps as u16)
    }

    /// The selector of the greatest value not above `uv` µV, or `None` where the range begins above
    /// it.
    ///
    /// In the range 600000 µV from selector 0 to 127 by 6250 µV, 900001 µV has selector 48, that of
    /// 900000 µV. Above the greatest value it is the last selector, also where the step is 0.
    pub fn selector_low(&self, uv: u32) -> Option<u16>
        requires { IsFitting self.now }
        ensures below { uv < self.now.min → result ≡ None }
        ensures above { greatest_of self.now < uv → result ≡ Some self.now.max_sel }
        ensures flat { self.now.min ≤ uv → uv ≤ greatest_of self.now → self.now.step ≡ 0 → result ≡ Some self.now.min_sel }
        ensures rounded_down { self.now.min ≤ uv → uv ≤ greatest_of self.now → 0 < self.now.step
            → result ≡ Some (self.now.min_sel + (uv - self.now.min) / self.now.step) }
        ensures greatest_value { option_and_then (value_in self.now) result ≡ option_map (λ p. p.1) (pick_low (values (self.now ∷ [])) uv) }
        ensures first_selector { 0 < self.now.step → result ≡ option_map (λ p. p.0) (pick_low (values (self.now ∷ [])) uv) }
    {
        if uv < self.min {
            return None;
        }
        if u64::from(uv) > self.greatest() {
            return Some(self.max_sel);
        }
        if self.step == 0 {
            return Some(self.min_sel);
        }
        let steps = (uv - self.min) / self.step;
        Some(self.min_sel + steps as u16)
    }

    /// The least value not below `uv` µV, at its first selector.
    pub(crate) fn pick_high(&self, uv: u32) -> Option<Pick>
        requires { IsFitting self.now }
        ensures { option_map pair_of result ≡ pick_high (values (self.now ∷ [])) uv }
    {
        if uv <= self.min {
            return Some(self.first_pick());
        }
        let sel = self.selector_high(uv)?;
        let uv = self.value(sel)?;
        Some(Pick { sel, uv })
    }

    /// The greatest value not above `uv` µV, at its first selector.
    pub(crate) fn pick_low(&self, uv: u32) -> Option<Pick>
        requires { IsFitting self.now }
        ensures { option_map pair_of result ≡ pick_low (values (self.now ∷ [])) uv }
    {
        if self.step == 0 && self.min <= uv {
            return Some(self.first_pick());
        }
        let sel = self.selector_low(uv)?;
        let uv = self.value(sel)?;
        Some(Pick { sel, uv })
    }

    /// How many selectors the range has.
    pub(crate) fn count(&self) -> u32
        requires { IsFitting self.now }
        ensures value { result ≡ self.now.max_sel - self.now.min_sel + 1 }
        ensures within { self.now.max_sel < 2 ^ 16 }
    {
        u32::from(self.max_sel - self.min_sel) + 1
    }

    fn first_pick(&self) -> Pick
        ensures { pair_of result ≡ (self.now.min_sel, self.now.min) }
    {
        Pick {
            sel: self.min_sel,
            uv: self.min,
        }
    }

    pub(crate) fn is_reversed(&self) -> bool
        ensures { result ≡ is_reversed self.now }
    {
        self.max_sel < self.min_sel
    }

    pub(crate) fn is_too_high(&self) -> bool
        ensures { result ≡ is_too_high self.now }
    {
        self.greatest() > u64::from(u32::MAX)
    }

    pub(crate) fn shares(&self, other: &LinearRange) -> bool
        ensures { result ≡ share_selector self.now other.now }
    {
        self.min_sel <= other.max_sel && other.min_sel <= self.max_sel
    }

    fn greatest(&self) -> u64
        ensures { result ≡ greatest_of self.now }
    {
        let steps = self.max_sel.saturating_sub(self.min_sel);
        u64::from(self.min) + u64::from(steps) * u64::from(self.step)
    }
}
