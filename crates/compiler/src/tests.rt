// Code written out by hand, and the limits: the last that is taken and the first that is not.
use crate::compiling::compile;
use arith::Comparison;
use instructions::Instruction;
use std::alloc::{AllocError, Global};
use std::process::Abort;
use std::test::Fail;
use tables::{Kind, Row};

const fn row(kind: Kind, value: i32, size: u16, place: u16) -> Row {
    Row {
        kind,
        value,
        size,
        place,
    }
}

// The lists are longer than the code, and what is past it stays.
fn same_code(rt: &impl Abort, rows: &[Row], expected: &[(Instruction, u16)]) -> Result<(), Fail> {
    let mut instructions = [Instruction::Jump(7); 40];
    let mut places = [999u16; 40];
    let length = compile(rows, 2, &mut instructions, &mut places)?;
    assert_eq!(rt; length, expected.len());
    for (i, (instruction, place)) in instructions.iter().zip(places.iter()).enumerate() {
        let (wanted, at) = expected
            .get(i)
            .copied()
            .unwrap_or((Instruction::Jump(7), 999));
        assert_eq!(rt; *instruction, wanted);
        assert_eq!(rt; *place, at);
    }
    Ok(())
}

const LOOP: [(Instruction, u16); 18] = [
    (Instruction::Push(1), 7),
    (Instruction::Save(0), 0),
    (Instruction::Pop, 0),
    (Instruction::Load(1), 17),
    (Instruction::Push(1), 21),
    (Instruction::Cmp(Comparison::Greater), 19),
    (Instruction::JumpF(18), 10),
    (Instruction::Load(0), 33),
    (Instruction::Load(1), 40),
    (Instruction::Mul, 38),
    (Instruction::Save(0), 26),
    (Instruction::Pop, 26),
    (Instruction::Load(1), 47),
    (Instruction::Push(1), 51),
    (Instruction::Sub, 49),
    (Instruction::Save(1), 43),
    (Instruction::Pop, 43),
    (Instruction::Jump(3), 10),
];

// fact = 1; while (x > 1) { fact = fact * x; x = x - 1; }, where fact is point 0 and x is point 1
#[test]
fn a_loop(rt: HostRuntime) -> Result<(), Fail> {
    let rows = [
        row(Kind::Number, 1, 1, 7),
        row(Kind::Set, 0, 2, 0),
        row(Kind::Name, 1, 1, 17),
        row(Kind::Number, 1, 1, 21),
        row(Kind::Compare, 2, 3, 19),
        row(Kind::Name, 0, 1, 33),
        row(Kind::Name, 1, 1, 40),
        row(Kind::Mul, 0, 3, 38),
        row(Kind::Set, 0, 4, 26),
        row(Kind::Name, 1, 1, 47),
        row(Kind::Number, 1, 1, 51),
        row(Kind::Sub, 0, 3, 49),
        row(Kind::Set, 1, 4, 43),
        row(Kind::Joint, 0, 9, 43),
        row(Kind::While, 0, 13, 10),
        row(Kind::Joint, 0, 16, 10),
    ];
    same_code(&rt, &rows, &LOOP)
}

const BRANCHES: [(Instruction, u16); 22] = [
    (Instruction::Load(0), 0),
    (Instruction::Push(2), 1),
    (Instruction::Push(1), 2),
    (Instruction::Div, 3),
    (Instruction::Add, 4),
    (Instruction::Load(1), 5),
    (Instruction::Cmp(Comparison::Equal), 6),
    (Instruction::Inv, 7),
    (Instruction::Push(1), 8),
    (Instruction::Push(0), 9),
    (Instruction::And, 10),
    (Instruction::Or, 11),
    (Instruction::JumpF(17), 18),
    (Instruction::Push(3), 12),
    (Instruction::Save(0), 13),
    (Instruction::Pop, 13),
    (Instruction::Jump(22), 18),
    (Instruction::Push(1), 14),
    (Instruction::JumpF(22), 17),
    (Instruction::Push(4), 15),
    (Instruction::Save(1), 16),
    (Instruction::Pop, 16),
];

// if (!(p0 + 2 / 1 == p1) || true && false) { p0 = 3; } else { if (true) { p1 = 4; } }, each place its row's index
#[test]
fn branches(rt: HostRuntime) -> Result<(), Fail> {
    let rows = [
        row(Kind::Name, 0, 1, 0),
        row(Kind::Number, 2, 1, 1),
        row(Kind::Number, 1, 1, 2),
        row(Kind::Div, 0, 3, 3),
        row(Kind::Add, 0, 5, 4),
        row(Kind::Name, 1, 1, 5),
        row(Kind::Compare, 4, 7, 6),
        row(Kind::Not, 0, 8, 7),
        row(Kind::Truth, 1, 1, 8),
        row(Kind::Truth, 0, 1, 9),
        row(Kind::And, 0, 3, 10),
        row(Kind::Or, 0, 12, 11),
        row(Kind::Number, 3, 1, 12),
        row(Kind::Set, 0, 2, 13),
        row(Kind::Truth, 1, 1, 14),
        row(Kind::Number, 4, 1, 15),
        row(Kind::Set, 1, 2, 16),
        row(Kind::If, 0, 4, 17),
        row(Kind::IfElse, 0, 19, 18),
    ];
    same_code(&rt, &rows, &BRANCHES)
}

// What is answered, as number and figure (0 and the length where it compiles). A refusal leaves both lists, of `Inv` at
// 999, as they were.
fn verdict_in(
    rt: &impl Abort,
    rows: &[Row],
    points: usize,
    instructions: &mut [Instruction],
    places: &mut [u16],
) -> Result<(u8, u64), Fail> {
    match compile(rows, points, instructions, places) {
        Ok(length) => Ok((0, length as u64)),
        Err(fault) => {
            for instruction in instructions.iter() {
                assert_eq!(rt; *instruction, Instruction::Inv);
            }
            for place in places.iter() {
                assert_eq!(rt; *place, 999);
            }
            Ok((fault.number(), fault.figure))
        }
    }
}

fn verdict(
    rt: &impl Abort,
    rows: &[Row],
    points: usize,
    slots: usize,
    more: usize,
) -> Result<(u8, u64), Fail> {
    let mut instructions = [Instruction::Inv; 1100];
    let mut places = [999u16; 1100];
    assert!(rt; slots <= 1100 && more <= 1100);
    verdict_in(
        rt,
        rows,
        points,
        &mut instructions[0..slots],
        &mut places[0..more],
    )
}

// if (true && true .. ) { p0 = 1; }, where the first `&&` stands at 9 and each next one 8 further on
fn conjunction(heap: Global, truths: u16) -> Result<Vec<Row>, AllocError> {
    let mut rows = Vec::new(heap);
    for i in 0..truths {
        rows.push(row(Kind::Truth, 1, 1, i.wrapping_mul(8)))?;
    }
    let mut size = 1u16;
    for i in 1..truths {
        size = size.wrapping_add(2);
        let sign = truths.wrapping_sub(i).wrapping_sub(1);
        rows.push(row(Kind::And, 0, size, sign.wrapping_mul(8).wrapping_add(9)))?;
    }
    rows.push(row(Kind::Number, 1, 1, 0))?;
    rows.push(row(Kind::Set, 0, 2, 0))?;
    rows.push(row(Kind::If, 0, size.wrapping_add(3), 0))?;
    Ok(rows)
}

#[test]
fn depth_64(rt: HostRuntime) -> Result<(), Fail> {
    for (truths, points, expected) in [
        (64, 1, (0, 131)),
        (65, 1, (10, 9)),
        (66, 1, (10, 17)),
        (65, 65, (10, 9)),
        (64, 65, (18, 65)),
    ] {
        let rows = conjunction(rt.alloc(), truths)?;
        assert_eq!(rt;
            verdict(&rt, rows.as_slice(), points, 1100, 1100)?,
            expected
        );
    }
    Ok(())
}

// p0 = 1 + 1 .. ;
fn long_set(heap: Global, ones: u16) -> Result<Vec<Row>, AllocError> {
    let mut rows = Vec::new(heap);
    rows.push(row(Kind::Number, 1, 1, 0))?;
    let mut size = 1u16;
    for _ in 1..ones {
        size = size.wrapping_add(2);
        rows.push(row(Kind::Number, 1, 1, 0))?;
        rows.push(row(Kind::Add, 0, size, 0))?;
    }
    rows.push(row(Kind::Set, 0, size.wrapping_add(1), 0))?;
    Ok(rows)
}

#[test]
fn room_for_1024(rt: HostRuntime) -> Result<(), Fail> {
    let mut rows = long_set(rt.alloc(), 510)?;
    rows.push(row(Kind::Number, 1, 1, 0))?;
    rows.push(row(Kind::Set, 0, 2, 0))?;
    rows.push(row(Kind::Joint, 0, 1023, 0))?;
    for (slots, more, points, expected) in [
        (1024, 1024, 1, (0, 1024)),
        (1100, 1024, 1, (0, 1024)),
        (1023, 1024, 1, (11, 1024)),
        (1100, 1023, 1, (11, 1024)),
        (0, 0, 65, (11, 1024)),
        (1024, 1024, 65, (18, 65)),
        (0, 0, 0, (9, 0)),
    ] {
        assert_eq!(rt;
            verdict(&rt, rows.as_slice(), points, slots, more)?,
            expected
        );
    }
    let longer = long_set(rt.alloc(), 512)?;
    assert_eq!(rt; verdict(&rt, longer.as_slice(), 1, 1100, 1100)?, (11, 1025));
    Ok(())
}
