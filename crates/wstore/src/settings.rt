ghost use Rattle.std.specs.Prelude.{◌≡◌, option_map};
ghost use Rattle.wstore.specs.Settings.{AreSettings};

use wsyntax::{FRAMES_LIMIT, FUEL_LIMIT, PAGES_LIMIT};

/// The limits of each call: units of fuel, at most 1,000,000,000; frames, 1 to 4,096; and pages of memory, at most 1,024.
#[derive(Clone, Copy, PartialEq, Eq)]
pub struct Settings {
    fuel: u32,
    frames: u32,
    pages: u32,
    ghost in_range: { AreSettings fuel frames pages },
}

impl Settings {
    ghost use Rattle.wstore.specs.Settings.{limits, limits_in_range};

    /// Settings of these limits; `None` exactly where one of them is out of its range.
    pub fn new(fuel: u32, frames: u32, pages: u32) -> Option<Settings>
        ensures { option_map (λ s. limits s.fuel s.frames s.pages) result ≡ limits_in_range fuel frames pages }
    {
        if fuel <= FUEL_LIMIT && 1 <= frames && frames <= FRAMES_LIMIT && pages <= PAGES_LIMIT {
            Some(Settings {
                fuel,
                frames,
                pages,
            })
        } else {
            None
        }
    }

    /// The law that each limit is in its range.
    pub fn in_range(&self)
        ensures { AreSettings self.now.fuel self.now.frames self.now.pages }
    {}

    /// How many units of fuel a call has.
    pub fn fuel(&self) -> u32
        ensures { result ≡ self.now.fuel }
    {
        self.fuel
    }

    /// How many frames may stand at a time.
    pub fn frames(&self) -> u32
        ensures { result ≡ self.now.frames }
    {
        self.frames
    }

    /// How many pages a memory may have.
    pub fn pages(&self) -> u32
        ensures { result ≡ self.now.pages }
    {
        self.pages
    }
}
