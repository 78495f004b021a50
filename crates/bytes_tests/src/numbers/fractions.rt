//! Fractions, in lowest terms.

use oas_num::Fraction;

/// The parts of a fraction in lowest terms, or zeros where there is none.
fn lowest(num: u64, den: u64) -> (u64, u64) {
    match Fraction::reduced(num, den) {
        Some(fraction) => (fraction.num(), fraction.den()),
        None => (0, 0),
    }
}

/// Fractions, and what each is in lowest terms.
const LOWEST: [((u64, u64), (u64, u64)); 10] = [
    ((1000, 1), (1000, 1)),
    ((2000, 2), (1000, 1)),
    ((6, 4), (3, 2)),
    ((1, u64::MAX), (1, u64::MAX)),
    ((u64::MAX, u64::MAX), (1, 1)),
    ((1 << 63, 1 << 32), (1 << 31, 1)),
    ((0, 5), (0, 0)),
    ((5, 0), (0, 0)),
    ((0, 0), (0, 0)),
    // Two Fibonacci numbers, for which Euclid's algorithm takes longest.
    (
        (12200160415121876738, 7540113804746346429),
        (12200160415121876738, 7540113804746346429),
    ),
];

#[test]
fn fractions(rt: HostRuntime) {
    for ((num, den), parts) in LOWEST {
        let found = lowest(num, den);
        assert!(rt; found == parts, "{num}/{den}");
    }
}

#[test]
fn equal_fractions(rt: HostRuntime) {
    let fraction = Fraction::reduced(9, 6);
    let equal = fraction == Fraction::reduced(3, 2);
    let inverse = fraction == Fraction::reduced(2, 3);
    let found = [equal, inverse];
    assert!(rt; found == [true, false]);
}
