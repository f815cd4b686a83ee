// Functions that a study evaluates at its points.
ghost use Rattle.std.specs.Prelude.{◌≡◌};
ghost use Rattle.dk_num.specs.Arithmetic.{ros};

use crate::Dec;

/// Rosenbrock's function, of the driver `rosenbrock` (`analysis_drivers` in the Dakota Reference Manual):
/// 100 * (x2 - x1 * x1)^2 + (1 - x1)^2, computed in seven steps. None exactly where one of them has no value.
pub fn rosenbrock(x1: Dec, x2: Dec) -> Option<Dec>
    ensures gives_value { result ≡ ros x1 x2 }
{
    let square = x1.mul(x1)?;
    let above = x2.sub(square)?;
    let steep = Dec::hundred().mul(above.mul(above)?)?;
    let left = Dec::one().sub(x1)?;
    steep.add(left.mul(left)?)
}
