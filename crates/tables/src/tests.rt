// Tables of every kind, and the same tables damaged. A row is written in four characters: its kind, its value, its
// size in two digits.
use crate::kind::Kind;
use crate::row::Row;
use crate::table::Table;
use std::alloc::{AllocError, Global};
use std::test::Fail;

// if (!(p1 <= 7 - 2) && true || p0 == 4 * p2 / 3) { p2 = 1 + p0; }
// else { if (true) { p0 = 6; } while (false) { p1 = 0; } p0 = 5; }
const EVERY_KIND: &str =
    "p101#701#201-003?105!006t101&008p001#401p201*003#301/005?407|016#101p001+003=204t101#601=002i004t001#001=102w004#501=002j007j012e033";

fn kind_of(sign: u8) -> Kind {
    match sign {
        b'#' => Kind::Number,
        b'p' => Kind::Name,
        b'+' => Kind::Add,
        b'-' => Kind::Sub,
        b'*' => Kind::Mul,
        b'/' => Kind::Div,
        b't' => Kind::Truth,
        b'?' => Kind::Compare,
        b'!' => Kind::Not,
        b'&' => Kind::And,
        b'|' => Kind::Or,
        b'=' => Kind::Set,
        b'i' => Kind::If,
        b'e' => Kind::IfElse,
        b'w' => Kind::While,
        _ => Kind::Joint,
    }
}

fn digit(b: u8) -> u8 {
    b.saturating_sub(b'0')
}

fn rows_of(heap: Global, text: &str) -> Result<Vec<Row>, AllocError> {
    let mut rows = Vec::new(heap);
    for four in text.as_bytes().chunks(4) {
        if let [sign, value, tens, units] = four {
            rows.push(Row {
                kind: kind_of(*sign),
                value: i32::from(digit(*value)),
                size: u16::from(digit(*tens))
                    .saturating_mul(10)
                    .saturating_add(u16::from(digit(*units))),
                place: 0,
            })?;
        }
    }
    Ok(rows)
}

// The refusal's number and figure, or zeros for a table.
fn verdict(rows: &[Row], points: usize) -> (u8, u64) {
    match Table::check(rows, points) {
        Ok(_) => (0, 0),
        Err(fault) => (fault.number(), fault.figure),
    }
}

#[test]
fn written_tables(rt: HostRuntime) -> Result<(), Fail> {
    let cases = [
        (EVERY_KIND, 3, (0, 0)),
        (EVERY_KIND, 64, (0, 0)),
        (EVERY_KIND, 65, (18, 65)),
        (EVERY_KIND, 2, (9, 0)),
        ("", 3, (9, 0)),
        ("#701", 3, (9, 0)),
        ("t101", 65, (9, 0)),
        ("#701=002", 1, (0, 0)),
        ("#701=002", 0, (9, 0)),
        ("=002#701", 1, (9, 0)),
        ("t101=002", 1, (9, 0)),
        ("t101#701=002i004", 1, (0, 0)),
        ("#701=002t101i004", 1, (9, 0)),
        ("t201#701=002i004", 1, (9, 0)),
        ("#701#701?503#701=002w006", 1, (0, 0)),
        ("#701#701?603#701=002w006", 1, (9, 0)),
        ("#701=002#701=002#701=002j005j008", 1, (0, 0)),
        ("#701=002#701=002j005#701=002j008", 1, (9, 0)),
        ("#701=002#701=002", 1, (9, 0)),
    ];
    for (text, points, expected) in cases {
        let rows = rows_of(rt.alloc(), text)?;
        assert_eq!(rt; verdict(rows.as_slice(), points), expected, "{}", text);
    }
    assert_eq!(rt;
        Row::blank(),
        Row {
            kind: Kind::Number,
            value: 0,
            size: 0,
            place: 0,
        }
    );
    Ok(())
}

// The rows with one of them changed.
fn with(
    heap: Global,
    at: usize,
    value: i32,
    size: u16,
    place: u16,
) -> Result<Vec<Row>, AllocError> {
    let rows = rows_of(heap, EVERY_KIND)?;
    let mut changed = Vec::new(heap);
    for (i, row) in rows.iter().enumerate() {
        let mut row = *row;
        if i == at {
            row.value = row.value.wrapping_add(value);
            row.size = row.size.wrapping_add(size);
            row.place = place;
        }
        changed.push(row)?;
    }
    Ok(changed)
}

#[test]
fn each_row_damaged(rt: HostRuntime) -> Result<(), Fail> {
    for at in 0..33 {
        // a value below 0, a size one larger or one smaller; and a place, which is not judged
        for (value, size, place, expected) in [
            (-9, 0, 0, 9),
            (0, 1, 0, 9),
            (0, 65535, 0, 9),
            (0, 0, 65535, 0),
        ] {
            let rows = with(rt.alloc(), at, value, size, place)?;
            let (number, _) = verdict(rows.as_slice(), 3);
            assert_eq!(rt; number, expected);
        }
    }
    Ok(())
}

// One set of 2 * adds + 2 rows.
fn long_set(heap: Global, adds: u16) -> Result<Vec<Row>, AllocError> {
    let one = Row {
        kind: Kind::Number,
        value: 1,
        size: 1,
        place: 0,
    };
    let mut rows = Vec::new(heap);
    rows.push(one)?;
    let mut size = 1u16;
    for _ in 0..adds {
        size = size.saturating_add(2);
        rows.push(one)?;
        rows.push(Row {
            kind: Kind::Add,
            value: 0,
            size,
            place: 0,
        })?;
    }
    rows.push(Row {
        kind: Kind::Set,
        value: 0,
        size: size.saturating_add(1),
        place: 0,
    })?;
    Ok(rows)
}

#[test]
fn at_most_2048_rows(rt: HostRuntime) -> Result<(), Fail> {
    let most = long_set(rt.alloc(), 1023)?;
    assert_eq!(rt; most.len(), 2048);
    assert_eq!(rt; verdict(most.as_slice(), 1), (0, 0));
    let more = long_set(rt.alloc(), 1024)?;
    assert_eq!(rt; verdict(more.as_slice(), 1), (9, 0));
    Ok(())
}
