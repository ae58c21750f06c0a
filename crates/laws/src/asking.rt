// A law asked for its answer, whatever the law.
ghost use Rattle.std.specs.Prelude.{IfOk};
ghost use Rattle.laws.specs.Asking.{Alike, Between, Rising};
ghost use Rattle.laws.specs.Meaning.{Answers};

use crate::fault::Fault;
use crate::material::Material;
use exact::bounds::Bounds;

/// The floor and the ceiling of the law's stress at n / m, in steps.
// any two numbers, as `Material::answer` is handed them
pub fn ask<M: Material>(law: &M, n: i64, m: i64) -> Result<Bounds, Fault>
    ensures answered { Answers (M.Material.stress law.now) n m result }
    ensures between { IfOk result (λ a. Between (M.Material.lowest law.now) (M.Material.highest law.now) a) }
    ensures rising { IfOk result (λ a. Rising (M.Material.stress law.now) n m a) }
    ensures alike { IfOk result (λ a. Alike (M.Material.stress law.now) n m a) }
{
    law.answer(n, m)
}
