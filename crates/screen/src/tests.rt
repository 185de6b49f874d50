// Sheets worked out. A row is written in four characters: its kind, its value, its size in two digits; M is the largest
// number. Its place is its index, so that a stop tells which row it was.
use crate::screening::work_out;
use std::alloc::{AllocError, Global};
use std::test::Fail;
use tables::{Kind, Row};

// if (!(p1 <= 7 - 2) && true || p0 == 4 * p2 / 3) { p2 = 1 + p0; }
// else { if (true) { p0 = 6; } while (false) { p1 = 0; } p0 = 5; }
const EVERY_KIND: &str =
    "p101#701#201-003?105!006t101&008p001#401p201*003#301/005?407|016#101p001+003=204t101#601=002i004t001#001=102w004#501=002j007j012e033";

// p2 = 2; while (p2 > 0) { p2 = p2 - 1; }
const COUNTING: &str = "#201=202p201#001?203p201#101-003=204w008j011";

// while (true) { p2 = p2 + 1; }
const ENDLESS: &str = "t101p201#101+003=204w006";

fn kind_of(sign: u8) -> Kind {
    match sign {
        b'#' => Kind::Number,
        b'p' => Kind::Name,
        b'+' => Kind::Add,
        b'-' => Kind::Sub,
        b'*' => Kind::Mul,
        b'/' => Kind::Div,
        b't' => Kind::Truth,
        b'?' => Kind::Compare,
        b'!' => Kind::Not,
        b'&' => Kind::And,
        b'|' => Kind::Or,
        b'=' => Kind::Set,
        b'i' => Kind::If,
        b'e' => Kind::IfElse,
        b'w' => Kind::While,
        _ => Kind::Joint,
    }
}

fn digit(b: u8) -> u8 {
    b.saturating_sub(b'0')
}

fn value_of(b: u8) -> i32 {
    if b == b'M' {
        i32::MAX
    } else {
        i32::from(digit(b))
    }
}

fn rows_of(heap: Global, text: &str) -> Result<Vec<Row>, AllocError> {
    let mut rows = Vec::new(heap);
    let mut place = 0u16;
    for four in text.as_bytes().chunks(4) {
        if let [sign, value, tens, units] = four {
            rows.push(Row {
                kind: kind_of(*sign),
                value: value_of(*value),
                size: u16::from(digit(*tens))
                    .saturating_mul(10)
                    .saturating_add(u16::from(digit(*units))),
                place,
            })?;
        }
        place = place.saturating_add(1);
    }
    Ok(rows)
}

// Number, figure and cost: zeros for "ended" before its cost, and no cost with a refusal.
fn told(rows: &[Row], points: &mut [i32], allowance: u32) -> (u8, u64, u32) {
    match work_out(rows, points, allowance) {
        Ok(outcome) => match outcome.stop {
            None => (0, 0, outcome.cost),
            Some(fault) => (fault.number(), fault.figure, outcome.cost),
        },
        Err(fault) => (fault.number(), fault.figure, 0),
    }
}

#[test]
fn answers_costs_and_points(rt: HostRuntime) -> Result<(), Fail> {
    let cases = [
        // each kind: the first body, then the second
        (EVERY_KIND, [0, 0, 0], 99, (0, 0, 23), [0, 0, 1]),
        (EVERY_KIND, [9, 0, 0], 99, (0, 0, 27), [5, 0, 0]),
        (EVERY_KIND, [9, 6, 0], 99, (0, 0, 23), [9, 6, 10]),
        // a name is read, and set, at its own point
        ("p101=202", [7, 8, 9], 9, (0, 0, 3), [7, 8, 8]),
        // add, subtract and multiply wrap; division goes toward zero, and its corner wraps
        (
            "#M01#101+003=004",
            [0, 0, 0],
            9,
            (0, 0, 5),
            [i32::MIN, 0, 0],
        ),
        (
            "p001#101-003=004",
            [i32::MIN, 0, 0],
            9,
            (0, 0, 5),
            [i32::MAX, 0, 0],
        ),
        ("#M01#201*003=004", [0, 0, 0], 9, (0, 0, 5), [-2, 0, 0]),
        ("p001#201/003=004", [-7, 0, 0], 9, (0, 0, 5), [-3, 0, 0]),
        (
            "p001#001#101-003/005=006",
            [i32::MIN, 0, 0],
            9,
            (0, 0, 7),
            [i32::MIN, 0, 0],
        ),
        // a zero divisor, in a sum and on the right of connectives that are decided
        (
            "#701p001p001-003/005=206",
            [4, 5, 6],
            9,
            (20, 4, 5),
            [4, 5, 6],
        ),
        (
            "t101#101#001/003#101?405|007#101=202i010",
            [4, 5, 6],
            9,
            (20, 3, 4),
            [4, 5, 6],
        ),
        (
            "t001#101#001/003#101?405&007#101=202i010",
            [4, 5, 6],
            9,
            (20, 3, 4),
            [4, 5, 6],
        ),
        // a stop takes back what was set before it
        (
            "#701=002#101#001/003=104j007",
            [4, 5, 6],
            9,
            (20, 4, 6),
            [4, 5, 6],
        ),
        // the cost exactly, and one less, which takes back too
        (COUNTING, [0, 0, 9], 27, (0, 0, 27), [0, 0, 0]),
        (COUNTING, [0, 0, 9], 26, (19, 26, 0), [0, 0, 9]),
        (
            "#701p001p001-003/005=206",
            [4, 5, 6],
            5,
            (20, 4, 5),
            [4, 5, 6],
        ),
        (
            "#701p001p001-003/005=206",
            [4, 5, 6],
            4,
            (19, 4, 0),
            [4, 5, 6],
        ),
        ("#701=002", [0, 0, 0], 3, (0, 0, 3), [7, 0, 0]),
        ("#701=002", [0, 0, 0], 2, (19, 2, 0), [0, 0, 0]),
        ("#701=002", [0, 0, 0], 0, (19, 0, 0), [0, 0, 0]),
        ("#701=002", [0, 0, 0], u32::MAX, (0, 0, 3), [7, 0, 0]),
        // never an answer
        (ENDLESS, [1, 2, 3], 5000, (19, 5000, 0), [1, 2, 3]),
        (ENDLESS, [1, 2, 3], 0, (19, 0, 0), [1, 2, 3]),
        // no table, which comes before the allowance
        ("#701", [1, 2, 3], 0, (9, 0, 0), [1, 2, 3]),
        ("#701=302", [1, 2, 3], 9, (9, 0, 0), [1, 2, 3]),
    ];
    for (text, [first, second, third], allowance, expected, after) in cases {
        let rows = rows_of(rt.alloc(), text)?;
        let mut points = [first, second, third];
        assert_eq!(rt;
            told(rows.as_slice(), &mut points, allowance),
            expected,
            "{}",
            text
        );
        assert_eq!(rt; points, after, "{}", text);
    }
    Ok(())
}

// if (p0 ? p1) { p2 = 1; }, for the six comparisons.
#[test]
fn comparisons_choose(rt: HostRuntime) -> Result<(), Fail> {
    let cases = [
        ("p001p101?003#101=202i006", [1, 0, 0]),
        ("p001p101?103#101=202i006", [1, 1, 0]),
        ("p001p101?203#101=202i006", [0, 0, 1]),
        ("p001p101?303#101=202i006", [0, 1, 1]),
        ("p001p101?403#101=202i006", [0, 1, 0]),
        ("p001p101?503#101=202i006", [1, 0, 1]),
    ];
    for (text, [less, equal, greater]) in cases {
        let rows = rows_of(rt.alloc(), text)?;
        for (left, holds) in [(-3, less), (2, equal), (5, greater)] {
            let mut points = [left, 2, 0];
            let cost = if holds == 1 { 7 } else { 4 };
            assert_eq!(rt;
                told(rows.as_slice(), &mut points, 7),
                (0, 0, cost),
                "{}",
                text
            );
            assert_eq!(rt; points, [left, 2, holds], "{}", text);
        }
    }
    Ok(())
}

// No table before too many points, and these before the allowance.
#[test]
fn refusals_in_order(rt: HostRuntime) -> Result<(), Fail> {
    let set = rows_of(rt.alloc(), "#701=002")?;
    let mut most = [3; 64];
    assert_eq!(rt; told(set.as_slice(), &mut most, 3), (0, 0, 3));
    assert_eq!(rt; most[0], 7);
    assert_eq!(rt; most[63], 3);
    let mut more = [3; 65];
    assert_eq!(rt; told(set.as_slice(), &mut more, 0), (18, 65, 0));
    assert_eq!(rt; more[0], 3);
    assert_eq!(rt; told(&[], &mut more, 0), (9, 0, 0));
    assert_eq!(rt; told(set.as_slice(), &mut [], 0), (9, 0, 0));
    Ok(())
}
