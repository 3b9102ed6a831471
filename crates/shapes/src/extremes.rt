// Minimum and maximum keep the first operand unless the second is strictly beyond it.
// So the order of the operands matters where one is a NaN, and at two zeros.
ghost use Rattle.std.specs.Prelude.{◌≡◌};
ghost use Rattle.rounding.specs.Extremes.{minimum, maximum};

pub fn minimum(x: f64, y: f64) -> f64
    ensures { result ≡ minimum x y }
{
    if y < x { y } else { x }
}

pub fn maximum(x: f64, y: f64) -> f64
    ensures { result ≡ maximum x y }
{
    if x < y { y } else { x }
}
