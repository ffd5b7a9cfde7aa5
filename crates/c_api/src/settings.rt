//! The limits of each call: `gate_settings` of gate.h.

ghost use Rattle.std.specs.Prelude.{◌≡◌, IfSome, is_some};
ghost use Rattle.wstore.specs.Settings.{limits, are_in_range};
ghost use Rattle.wstore.specs.CallLimits.{limits_of};

use wstore::Settings;

/// The limits of each call.
#[repr(C)]
#[derive(Clone, Copy)]
pub struct GateSettings {
    /// Units of fuel, at most 1,000,000,000.
    pub fuel: u32,
    /// Frames, 1 to 4,096.
    pub frames: u32,
    /// Pages of memory, at most 1,024.
    pub pages: u32,
}

const _: () = prove!(size_of::<GateSettings>() == 12 && align_of::<GateSettings>() == 4);

impl GateSettings {
    /// The settings of these limits; `None` where one of them is out of its range.
    pub(crate) fn settings(&self) -> Option<Settings>
        ensures limits { IfSome result (λ s. limits_of s ≡ limits self.now.fuel self.now.frames self.now.pages) }
        ensures range { is_some result ≡ are_in_range self.now.fuel self.now.frames self.now.pages }
    {
        Settings::new(self.fuel, self.frames, self.pages)
    }
}
