ghost use Rattle.std.specs.Prelude.{◌≡◌, ◌≤◌, ◌-◌, option_map};
ghost use Rattle.wsyntax.specs.Texts.Answer.{fuel_limit};
ghost use Rattle.wmachine.specs.Fuel.{limit_in_range};

use wsyntax::FUEL_LIMIT;

/// Fuel, of which each entry of a function and each turn of a loop takes a unit. The start function and the call take theirs from
/// the same one.
#[derive(Drop)]
pub struct Fuel {
    limit: u32,
    left: u32,
    ghost in_range: { (left ≤ limit) × (limit ≤ fuel_limit) },
}

impl Fuel {
    /// Fuel of `limit` units. `None` exactly where that is more than 1,000,000,000.
    pub fn new(limit: u32) -> Option<Fuel>
        ensures limit { option_map (λ f. f.limit) result ≡ limit_in_range limit }
        ensures whole { option_map (λ f. f.left) result ≡ limit_in_range limit }
    {
        if limit > FUEL_LIMIT {
            return None;
        }
        Some(Fuel { limit, left: limit })
    }

    /// The units that are spent.
    pub fn spent(&self) -> u32
        ensures { result ≡ self.now.limit - self.now.left }
    {
        self.limit - self.left
    }

    /// The units that are left.
    pub fn left(&self) -> u32
        ensures { result ≡ self.now.left }
    {
        self.left
    }

    /// Sets the units that are left to `left`.
    pub(crate) fn lower(&mut self, left: u32)
        requires { left ≤ self.old.left }
        ensures left { self.new.left ≡ left }
        ensures limit { self.new.limit ≡ self.old.limit }
    {
        self.left = left;
    }
}
