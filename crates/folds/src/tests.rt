// Lengths, depths and points of small tables worked out by hand, and what a fold leaves in its slots.
ghost use Rattle.std.specs.Prelude.{◌≡◌, length};
ghost use Rattle.folds.specs.Folds.{spared, fold_leaves, Measures};
ghost use Rattle.folds.specs.CodeLengths.{length_sums, length_rest, sheet_length};
ghost use Rattle.folds.specs.StackDepths.{depth_sums, depth_rest, sheet_depth};
ghost use Rattle.folds.specs.PointSets.{point_sums, point_rest, sheet_points};

use crate::depths::StackDepth;
use crate::lengths::CodeLength;
use crate::measure::Measure;
use crate::point_sets::PointsUsed;
use faults::{Fault, Layer, TableCause};
use std::alloc::{AllocError, Global};
use std::test::Fail;
use tables::{Kind, Row};

type Brief = (Kind, i32, u16);

// p2 = 1 + p0;
const SUM: [Brief; 4] = [
    (Kind::Number, 1, 1),
    (Kind::Name, 0, 1),
    (Kind::Add, 0, 3),
    (Kind::Set, 2, 4),
];

// p0 = 1 - (2 - (3 - 4));
const TO_THE_RIGHT: [Brief; 8] = [
    (Kind::Number, 1, 1),
    (Kind::Number, 2, 1),
    (Kind::Number, 3, 1),
    (Kind::Number, 4, 1),
    (Kind::Sub, 0, 3),
    (Kind::Sub, 0, 5),
    (Kind::Sub, 0, 7),
    (Kind::Set, 0, 8),
];

// p0 = 1 * 2 / 3;
const TO_THE_LEFT: [Brief; 6] = [
    (Kind::Number, 1, 1),
    (Kind::Number, 2, 1),
    (Kind::Mul, 0, 3),
    (Kind::Number, 3, 1),
    (Kind::Div, 0, 5),
    (Kind::Set, 0, 6),
];

// while (p1 > 0) { p1 = p1 - 1; } p63 = 7;
const LOOP: [Brief; 11] = [
    (Kind::Name, 1, 1),
    (Kind::Number, 0, 1),
    (Kind::Compare, 2, 3),
    (Kind::Name, 1, 1),
    (Kind::Number, 1, 1),
    (Kind::Sub, 0, 3),
    (Kind::Set, 1, 4),
    (Kind::While, 0, 8),
    (Kind::Number, 7, 1),
    (Kind::Set, 63, 2),
    (Kind::Joint, 0, 11),
];

// if (!true && false || true) { p0 = 1; } else { if (true) { p1 = 2; } }
const BRANCHES: [Brief; 13] = [
    (Kind::Truth, 1, 1),
    (Kind::Not, 0, 2),
    (Kind::Truth, 0, 1),
    (Kind::And, 0, 4),
    (Kind::Truth, 1, 1),
    (Kind::Or, 0, 6),
    (Kind::Number, 1, 1),
    (Kind::Set, 0, 2),
    (Kind::Truth, 1, 1),
    (Kind::Number, 2, 1),
    (Kind::Set, 1, 2),
    (Kind::If, 0, 4),
    (Kind::IfElse, 0, 13),
];

fn rows_of(heap: Global, table: &[Brief]) -> Result<Vec<Row>, AllocError> {
    let mut rows = Vec::new(heap);
    for (kind, value, size) in table {
        rows.push(Row {
            kind: *kind,
            value: *value,
            size: *size,
            place: 0,
        })?;
    }
    Ok(rows)
}

// What a caller of one measure knows of it.

fn code_length(rows: &[Row], points: usize, slots: &mut [u32]) -> Result<u32, Fault>
    ensures value { (result, spared (length rows.now) result slots.new) ≡ fold_leaves length_sums length_rest points rows.now slots.old }
    ensures exact { Measures sheet_length points rows.now (length slots.old) result }
{
    CodeLength.measure(rows, points, slots)
}

fn stack_depth(rows: &[Row], points: usize, slots: &mut [u32]) -> Result<u32, Fault>
    ensures value { (result, spared (length rows.now) result slots.new) ≡ fold_leaves depth_sums depth_rest points rows.now slots.old }
    ensures exact { Measures sheet_depth points rows.now (length slots.old) result }
{
    StackDepth.measure(rows, points, slots)
}

fn points_used(rows: &[Row], points: usize, slots: &mut [u64]) -> Result<u64, Fault>
    ensures value { (result, spared (length rows.now) result slots.new) ≡ fold_leaves point_sums point_rest points rows.now slots.old }
    ensures exact { Measures sheet_points points rows.now (length slots.old) result }
{
    PointsUsed.measure(rows, points, slots)
}

fn measure(heap: Global, table: &[Brief]) -> Result<(u32, u32, u64), Fail> {
    let rows = rows_of(heap, table)?;
    let length = code_length(rows.as_slice(), 64, &mut [0; 13])?;
    let depth = stack_depth(rows.as_slice(), 64, &mut [0; 13])?;
    let points = points_used(rows.as_slice(), 64, &mut [0; 13])?;
    Ok((length, depth, points))
}

#[test]
fn measures(rt: HostRuntime) -> Result<(), Fail> {
    assert_eq!(rt; measure(rt.alloc(), &SUM)?, (5, 2, 0b101));
    assert_eq!(rt; measure(rt.alloc(), &TO_THE_RIGHT)?, (9, 4, 1));
    assert_eq!(rt; measure(rt.alloc(), &TO_THE_LEFT)?, (7, 2, 1));
    assert_eq!(rt; measure(rt.alloc(), &LOOP)?, (13, 2, 0x8000_0000_0000_0002));
    assert_eq!(rt; measure(rt.alloc(), &BRANCHES)?, (16, 2, 0b11));
    Ok(())
}

#[test]
fn slots_are_used_and_spared(rt: HostRuntime) -> Result<(), Fail> {
    let rows = rows_of(rt.alloc(), &SUM)?;
    let mut exact = [9u32; 4];
    assert_eq!(rt; code_length(rows.as_slice(), 3, &mut exact), Ok(5));
    let mut more = [9u32; 6];
    assert_eq!(rt; stack_depth(rows.as_slice(), 3, &mut more), Ok(2));
    assert_eq!(rt; (more[4], more[5]), (9, 9));
    let mut fewer = [9u32; 3];
    let needed = Fault {
        layer: Layer::Table(TableCause::TooFewSlots),
        figure: 4,
    };
    assert_eq!(rt; code_length(rows.as_slice(), 3, &mut fewer), Err(needed));
    assert_eq!(rt; fewer, [9, 9, 9]);
    Ok(())
}

// The refusal's number and figure, or zeros.
fn refusal(rows: &[Row], points: usize, slots: &mut [u64]) -> (u8, u64) {
    match points_used(rows, points, slots) {
        Ok(_) => (0, 0),
        Err(fault) => (fault.number(), fault.figure),
    }
}

#[test]
fn refusals_in_their_order(rt: HostRuntime) -> Result<(), Fail> {
    let rows = rows_of(rt.alloc(), &SUM)?;
    assert_eq!(rt; refusal(rows.as_slice(), 65, &mut [7; 3]), (8, 4));
    let mut slots = [7u64; 4];
    assert_eq!(rt; refusal(rows.as_slice(), 2, &mut slots), (9, 0));
    assert_eq!(rt; refusal(rows.as_slice(), 65, &mut slots), (18, 65));
    assert_eq!(rt; slots, [7, 7, 7, 7]);
    assert_eq!(rt; refusal(rows.as_slice(), 64, &mut slots), (0, 0));
    Ok(())
}
