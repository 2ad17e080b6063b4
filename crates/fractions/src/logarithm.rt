ghost use Rattle.std.specs.Prelude.{◌≡◌, ℕ, ◌*◌, ◌^◌, ◌<◌, ◌≤◌};
ghost use Rattle.fractions.specs.Logarithm.{IsLogarithm, IsMantissa, exponent_of, first_place, log_of, mantissa_of, rest_of};

/// How many binary places a logarithm has.
const PLACES: u32 = 16;

/// The first binary place of a mantissa's logarithm, and the mantissa that the places after it belong to. A mantissa of
/// 2^62 stands for 1.
fn next_place(mantissa: u64) -> (u32, u64)
    requires one_or_more { 2 ^ 62 ≤ mantissa }
    requires below_two { mantissa < 2 ^ 63 }
    ensures place { result.0 ≡ first_place mantissa }
    ensures rest { result.1 ≡ rest_of mantissa }
    ensures one_or_more { 2 ^ 62 ≤ result.1 }
    ensures below_two { result.1 < 2 ^ 63 }
{
    let square = ((u128::from(mantissa) * u128::from(mantissa)) >> 62) as u64;
    if square >= 1 << 63 {
        (1, square / 2)
    } else {
        (0, square)
    }
}

/// The binary logarithm of `n` in parts of 65536, from its exponent and sixteen places by repeated squaring.
pub fn log_fixed(n: u32) -> u32
    requires positive { 1 ≤ n }
    requires bounded { n ≤ 100000 }
    ensures value { result ≡ log_of n }
    ensures near { IsLogarithm n result }
    ensures monotone { (m : ℕ) → 1 ≤ m → m ≤ n → log_of m ≤ result }
    ensures small { result < 17 * 65536 }
{
    let exponent = n.ilog2();
    let mut mantissa = u64::from(n) << (62 - exponent);
    let mut log = exponent * 65536;
    for place in (0..PLACES).rev() {
        let (bit, rest) = next_place(mantissa);
        log += bit << place;
        mantissa = rest;
    }
    log
}

/// A law: a number is two to its exponent times its mantissa over 2^62, and no mantissa is below 1 or reaches 2.
pub fn number_is_power_times_mantissa(n: u32)
    requires positive { 1 ≤ n }
    requires bounded { n ≤ 100000 }
    ensures { IsMantissa n (exponent_of n) (mantissa_of n) }
{}
