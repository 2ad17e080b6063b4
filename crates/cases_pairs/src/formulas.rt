//! The test and the importance of a pair by their formulas (PLDI 2005 section 3), and the bound of a pair.
use fractions::{Tally, log_fixed};

/// A share, as what is above its line and what is below it.
pub type Share = (u128, u128);

fn product(factors: &[u128]) -> u128 {
    let mut all = 1u128;
    for factor in factors {
        all = all.saturating_mul(*factor);
    }
    all
}

/// The first share is less.
pub fn is_less(left: Share, right: Share) -> bool {
    product(&[left.0, right.1]) < product(&[right.0, left.1])
}

fn logarithm(number: u32) -> u128 {
    if number == 0 || number > 100_000 {
        return 0;
    }
    u128::from(log_fixed(number))
}

fn parts(tally: Tally) -> [u128; 4] {
    [
        u128::from(tally.a),
        u128::from(tally.b),
        u128::from(tally.c),
        u128::from(tally.d),
    ]
}

/// How far a failure is likelier where it is true: the surplus, over the spread.
fn increase(tally: Tally) -> Share {
    let [a, b, c, d] = parts(tally);
    let surplus = product(&[a, d]).saturating_sub(product(&[b, c]));
    (
        surplus,
        product(&[a.saturating_add(b), c.saturating_add(d)]),
    )
}

fn passes(tally: Tally) -> bool {
    let [a, b, c, d] = parts(tally);
    let (surplus, _) = increase(tally);
    let failing = product(&[38416, a, c.saturating_sub(a), d, d, d]);
    let successful = product(&[38416, b, d.saturating_sub(b), c, c, c]);
    surplus > 0 && failing.saturating_add(successful) < product(&[surplus, surplus, c, d, 10_000])
}

/// The harmonic mean of a share and of one logarithm over another, 0 where one of these is 0.
fn mean(share: Share, own: u128, whole: u128) -> Share {
    if own == 0 || whole == 0 {
        return (0, 1);
    }
    let bottom = product(&[share.0, whole]).saturating_add(product(&[own, share.1]));
    (product(&[2, share.0, own]), bottom)
}

/// The importance, where so many runs fail; None where it doesn't pass.
pub fn importance(tally: Tally, failing: u32) -> Option<Share> {
    if !passes(tally) {
        return None;
    }
    Some(mean(increase(tally), logarithm(tally.a), logarithm(failing)))
}

/// The bound of a pair whose members were true in so many failing runs.
pub fn bound(left: u32, right: u32, failing: u32) -> Share {
    mean((1, 1), logarithm(left.min(right)), logarithm(failing))
}
