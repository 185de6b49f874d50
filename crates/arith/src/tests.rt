// The limits of 32 bits, the corners of division, and each comparison below, at and above.
use crate::comparison::{Comparison, NoComparison};
use crate::operator::Operator;
use faults::RunCause;

#[test]
fn operators_at_their_limits(rt: HostRuntime) {
    let cases = [
        (Operator::Add, i32::MAX, 1, i32::MIN),
        (Operator::Add, i32::MIN, -1, i32::MAX),
        (Operator::Sub, i32::MIN, 1, i32::MAX),
        (Operator::Sub, 0, i32::MIN, i32::MIN),
        (Operator::Mul, 65536, 65536, 0),
        (Operator::Mul, i32::MIN, -1, i32::MIN),
        (Operator::Mul, 46341, 46341, -2147479015),
        (Operator::Div, 7, 2, 3),
        (Operator::Div, -7, 2, -3),
        (Operator::Div, 7, -2, -3),
        (Operator::Div, -7, -2, 3),
        (Operator::Div, i32::MIN, -1, i32::MIN),
        (Operator::Div, i32::MIN, 1, i32::MIN),
        (Operator::Div, i32::MIN, i32::MAX, -1),
        (Operator::Div, i32::MAX, -1, -2147483647),
        (Operator::Div, 5, -1, -5),
        (Operator::Div, 0, -1, 0),
        (Operator::Div, 1, i32::MIN, 0),
    ];
    for (operator, left, right, answer) in cases {
        assert_eq!(rt; operator.apply(left, right), Ok(answer));
    }
    for left in [0, 1, -1, i32::MIN, i32::MAX] {
        assert_eq!(rt; Operator::Div.apply(left, 0), Err(RunCause::ZeroDivisor));
    }
}

#[test]
fn comparisons_below_at_and_above(rt: HostRuntime) {
    let cases = [
        (Comparison::Less, true, false, false),
        (Comparison::LessOrEqual, true, true, false),
        (Comparison::Greater, false, false, true),
        (Comparison::GreaterOrEqual, false, true, true),
        (Comparison::Equal, false, true, false),
        (Comparison::NotEqual, true, false, true),
    ];
    for (i, (comparison, below, at, above)) in cases.iter().enumerate() {
        assert_eq!(rt; comparison.holds(i32::MIN, i32::MAX), *below);
        assert_eq!(rt; comparison.holds(-1, 0), *below);
        assert_eq!(rt; comparison.holds(-1, -1), *at);
        assert_eq!(rt; comparison.holds(0, -1), *above);
        assert_eq!(rt; comparison.holds(i32::MAX, i32::MIN), *above);
        let number = u8::from(*comparison);
        assert_eq!(rt; usize::from(number), i);
        assert_eq!(rt; Comparison::try_from(u32::from(number)), Ok(*comparison));
    }
    assert_eq!(rt; Comparison::try_from(6), Err(NoComparison { number: 6 }));
    assert_eq!(rt;
        Comparison::try_from(u32::MAX),
        Err(NoComparison { number: u32::MAX, })
    );
}
