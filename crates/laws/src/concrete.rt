// A concrete law: a material law without tension, and of at most 10,000 psi.
ghost use Rattle.std.specs.Prelude.{◌≡◌, ◌*◌, pos, ◌≤ℤ◌};
ghost use Rattle.laws.specs.Meaning.{steps, strongest};

use crate::material::Material;

pub mod law;

/// A law of concrete.
pub trait Concrete: Material {
    /// The lowest stress in steps: 0, since concrete takes no tension.
    fn tension_limit(&self) -> i64
        ensures least { result ≡ Self.Material.lowest self.now }
        ensures none { result ≡ pos 0 }
    {
        self.least()
    }

    /// The highest stress in steps: at most that of 10,000 psi.
    fn compression_limit(&self) -> i64
        ensures most { result ≡ Self.Material.highest self.now }
        ensures small { result ≤ℤ pos (steps * strongest) }
    {
        self.most()
    }

    // what every concrete law owes besides
    ghost limits: { (s : Self) → (Self.Material.lowest s ≡ pos 0) × (Self.Material.highest s ≤ℤ pos (steps * strongest)) };
}
