//! Numbers that stop at the greatest `u64`.
ghost use Rattle.std.specs.Prelude.{◌≡◌, ◌+◌, ◌-◌, ◌*◌, ◌^◌, min};

/// The sum, or the greatest number where it is greater.
pub fn plus(left: u64, right: u64) -> u64
    ensures { result ≡ min (left + right) (2 ^ 64 - 1) }
{
    left.saturating_add(right)
}

/// The product, or the greatest number where it is greater.
pub fn product(left: u64, right: u64) -> u64
    ensures { result ≡ min (left * right) (2 ^ 64 - 1) }
{
    left.saturating_mul(right)
}

/// How many sets n things have, or the greatest number where it is greater.
#[tactic(auto, using(crate::proofs::Caps::doubled))]
pub fn power_of_two(exponent: usize) -> u64
    ensures { result ≡ min (2 ^ exponent) (2 ^ 64 - 1) }
{
    let mut power = 1;
    for _step in 0..exponent {
        power = plus(power, power);
    }
    power
}
