// Worked figures of the laws.
#![tactic(auto)]

ghost use Rattle.std.specs.Prelude.{◌≡◌, pos, negsuc, Ok};
ghost use Rattle.figures.specs.Figures.{Worked, bounds};

use exact::bounds::Bounds;
use laws::block::Block;
use laws::fault::Fault;
use laws::material::Material;
use laws::mill::Mill;
use laws::mill::reading::Reading;
use laws::strength::ConcreteStrength;
use laws::trapezoid::Trapezoid;
use laws::yielding::Yield;

// the points of the mill curve
const MEASURED: [Reading; 3] = [
    Reading {
        ratio: 0,
        stress: 0,
    },
    Reading {
        ratio: 690,
        stress: 60_000,
    },
    Reading {
        ratio: 5_000,
        stress: 80_000,
    },
];

/// What the laws answer: floors and ceilings in steps, which are psi, and β in thousandths.
#[derive(Clone, Copy)]
pub struct LawFigures {
    /// β at the strengths 4,000, 4,100, 8,000 and 10,000
    pub beta_4000: u32,
    pub beta_4100: u32,
    pub beta_8000: u32,
    pub beta_10000: u32,
    /// the block of 4,000 at 3/20 and at 29/200
    pub block_at_edge: Bounds,
    pub block_below_edge: Bounds,
    /// the trapezoid of 4,000 at 1/7 and at 1/2
    pub trapezoid_seventh: Bounds,
    pub trapezoid_half: Bounds,
    /// the yield law of 60,000 at 1/7 and at -1/7
    pub yield_seventh: Bounds,
    pub yield_in_tension: Bounds,
    /// the mill curve (0, 0), (690, 60,000), (5,000, 80,000) at 1
    pub mill_one: Bounds,
}

/// The figures, each a theorem: about the definitions of the laws, and about what their calls return.
pub fn law_figures() -> Result<LawFigures, Fault>
    ensures worked { Worked }
    ensures returned { result ≡ Ok (record { beta_4000 = 850; beta_4100 = 845; beta_8000 = 650; beta_10000 = 650; block_at_edge = bounds (pos 3400) (pos 3400); block_below_edge = bounds (pos 0) (pos 0); trapezoid_seventh = bounds (pos 971) (pos 972); trapezoid_half = bounds (pos 3400) (pos 3400); yield_seventh = bounds (pos 12428) (pos 12429); yield_in_tension = bounds (negsuc 12428) (negsuc 12427); mill_one = bounds (pos 61438) (pos 61439) }) }
{
    let block = Block::new(4_000)?;
    let trapezoid = Trapezoid::new(4_000)?;
    let steel = Yield::new(60_000)?;
    let mill = Mill::new(&MEASURED)?;
    Ok(LawFigures {
        beta_4000: ConcreteStrength::new(4_000)?.beta(),
        beta_4100: ConcreteStrength::new(4_100)?.beta(),
        beta_8000: ConcreteStrength::new(8_000)?.beta(),
        beta_10000: ConcreteStrength::new(10_000)?.beta(),
        block_at_edge: block.answer(3, 20)?,
        block_below_edge: block.answer(29, 200)?,
        trapezoid_seventh: trapezoid.answer(1, 7)?,
        trapezoid_half: trapezoid.answer(1, 2)?,
        yield_seventh: steel.answer(1, 7)?,
        yield_in_tension: steel.answer(-1, 7)?,
        mill_one: mill.answer(1, 1)?,
    })
}
