// Files written and read, damaged and cut.
use arith::Comparison;
use faults::FileCause::{NoFile, NoSpace};
use faults::{Fault, FileCause, Layer};
use instructions::Instruction;
use station_file::{AfterInstructions, Begin, StationFile};
use std::process::Abort;
use std::test::Fail;

// One instruction of each code, with the last operand that it may have among three points.
const ALL: [Instruction; 14] = [
    Instruction::Push(-2),
    Instruction::Load(2),
    Instruction::Save(0),
    Instruction::Pop,
    Instruction::Add,
    Instruction::Sub,
    Instruction::Mul,
    Instruction::Div,
    Instruction::Cmp(Comparison::NotEqual),
    Instruction::Inv,
    Instruction::And,
    Instruction::Or,
    Instruction::JumpF(14),
    Instruction::Jump(0),
];

const PLACES: [u16; 14] = [0, 1, 2, 3, 4, 5, 6, 7, 8, 9, 10, 11, 300, 65535];

// The file of these, with three points.
const FILE: [u8; 104] = [
    3, 0, 14, 0, // the two counts
    0, 0xfe, 0xff, 0xff, 0xff, // Push -2
    1, 2, 0, 0, 0, // Load 2
    2, 0, 0, 0, 0, // Save 0
    3, 0, 0, 0, 0, // Pop
    4, 0, 0, 0, 0, // Add
    5, 0, 0, 0, 0, // Sub
    6, 0, 0, 0, 0, // Mul
    7, 0, 0, 0, 0, // Div
    8, 5, 0, 0, 0, // Cmp !=
    9, 0, 0, 0, 0, // Inv
    10, 0, 0, 0, 0, // And
    11, 0, 0, 0, 0, // Or
    12, 14, 0, 0, 0, // JumpF 14
    13, 0, 0, 0, 0, // Jump 0
    14, 0, // the places' count
    0, 0, 1, 0, 2, 0, 3, 0, 4, 0, 5, 0, 6, 0, 7, 0, 8, 0, 9, 0, 10, 0, 11, 0, 0x2c, 1, 0xff, 0xff,
];

fn fault(cause: FileCause, figure: usize) -> Fault {
    Fault::new(Layer::File(cause), figure)
}

// What the reader says of bytes: none where it takes them.
fn refusal(bytes: &[u8]) -> Option<Fault> {
    StationFile::read(bytes).err()
}

fn opened(
    bytes: &mut [u8],
    points: usize,
    code: &[Instruction],
) -> Result<AfterInstructions, Fault> {
    Begin::new()
        .instructions(bytes, points, code)
        .map_err(|(_, fault)| fault)
}

fn finished(after: AfterInstructions, bytes: &mut [u8], places: &[u16]) -> Result<usize, Fault> {
    let file = after.places(bytes, places).map_err(|(_, fault)| fault)?;
    Ok(file.length)
}

fn written(
    bytes: &mut [u8],
    points: usize,
    code: &[Instruction],
    places: &[u16],
) -> Result<usize, Fault> {
    let after = opened(bytes, points, code)?;
    finished(after, bytes, places)
}

#[test]
fn a_file_to_the_byte(rt: HostRuntime) -> Result<(), Fail> {
    let mut bytes = [0x5c; 106];
    assert_eq!(rt; written(&mut bytes, 3, &ALL, &PLACES)?, 104);
    let mut around = [0x5c; 106];
    around[0..104].copy_from_slice(&FILE);
    assert_eq!(rt; bytes, around);
    Ok(())
}

#[test]
fn a_file_read_back(rt: HostRuntime) -> Result<(), Fail> {
    let file = StationFile::read(&FILE)?;
    assert_eq!(rt; file.points(), 3);
    assert_eq!(rt; file.instructions(), &ALL[..]);
    assert_eq!(rt; file.places(), &PLACES[..]);
    Ok(())
}

// Where the field begins that a cut after so many bytes leaves short or missing.
fn cut_field(length: usize) -> usize {
    if length < 4 {
        length / 2 * 2
    } else if length < 74 {
        let start = 4 + (length - 4) / 5 * 5;
        if length == start { start } else { start + 1 }
    } else {
        length / 2 * 2
    }
}

#[test]
fn cut_at_every_length(rt: HostRuntime) {
    for length in 0..104 {
        assert_eq!(rt;
            refusal(&FILE[0..length]),
            Some(fault(NoFile, cut_field(length)))
        );
    }
    assert_eq!(rt; refusal(&FILE), None);
}

#[test]
fn one_byte_more(rt: HostRuntime) {
    let mut bytes = [0; 105];
    bytes[0..104].copy_from_slice(&FILE);
    assert_eq!(rt; refusal(&bytes), Some(fault(NoFile, 104)));
}

// A byte, the value that it is given, and the field that is then wrong.
const DAMAGES: [(usize, u8, usize); 30] = [
    (0, 0, 0),
    (0, 65, 0),
    (1, 1, 0),
    (2, 0, 2),
    (3, 5, 2),
    (2, 13, 65),
    (2, 15, 74),
    (4, 14, 4),
    (4, 3, 5),
    (9, 14, 9),
    (10, 3, 10),
    (13, 1, 10),
    (15, 3, 15),
    (17, 1, 15),
    (20, 1, 20),
    (25, 1, 25),
    (30, 1, 30),
    (35, 1, 35),
    (40, 255, 40),
    (45, 6, 45),
    (46, 1, 45),
    (50, 1, 50),
    (55, 1, 55),
    (60, 1, 60),
    (65, 15, 65),
    (66, 1, 65),
    (70, 15, 70),
    (73, 128, 70),
    (74, 13, 74),
    (75, 1, 74),
];

#[test]
fn each_field_damaged(rt: HostRuntime) {
    for (at, value, field) in DAMAGES {
        let mut bytes = FILE;
        assert!(rt; at < 104);
        bytes[at] = value;
        assert_eq!(rt; refusal(&bytes), Some(fault(NoFile, field)));
    }
}

#[test]
fn one_instruction_and_the_most(rt: HostRuntime) -> Result<(), Fail> {
    let mut small = [0; 13];
    assert_eq!(rt; written(&mut small, 64, &[Instruction::Jump(1)], &[9])?, 13);
    assert_eq!(rt; refusal(&small), None);
    assert_eq!(rt;
        written(&mut small, 1, &[Instruction::Jump(2)], &[9]),
        Err(fault(NoFile, 0))
    );
    let code = [Instruction::Inv; 1024];
    let places = [7; 1024];
    let mut bytes = [0; 7174];
    assert_eq!(rt; written(&mut bytes, 1, &code, &places)?, 7174);
    assert_eq!(rt; refusal(&bytes), None);
    Ok(())
}

#[test]
fn a_space_one_byte_too_small(rt: HostRuntime) {
    let mut bytes = [0; 103];
    assert_eq!(rt;
        written(&mut bytes, 3, &ALL, &PLACES),
        Err(fault(NoSpace, 30))
    );
    let mut bytes = [0; 73];
    assert_eq!(rt;
        written(&mut bytes, 3, &ALL, &PLACES),
        Err(fault(NoSpace, 74))
    );
    // too large is said first
    assert_eq!(rt;
        written(&mut bytes, 0, &ALL, &PLACES),
        Err(fault(NoSpace, 74))
    );
}

#[test]
fn too_many_instructions(rt: HostRuntime) {
    let mut bytes = [0; 7181];
    let code = [Instruction::Inv; 1025];
    let places = [7; 1025];
    assert_eq!(rt;
        written(&mut bytes, 1, &code, &places),
        Err(fault(NoFile, 1024))
    );
}

#[test]
fn the_smallest_index_that_is_wrong(rt: HostRuntime) {
    let mut bytes = [0x5c; 104];
    assert_eq!(rt;
        written(&mut bytes, 0, &ALL, &PLACES),
        Err(fault(NoFile, 0))
    );
    assert_eq!(rt;
        written(&mut bytes, 65, &ALL, &PLACES),
        Err(fault(NoFile, 0))
    );
    assert_eq!(rt; written(&mut bytes, 3, &[], &[]), Err(fault(NoFile, 0)));
    assert_eq!(rt;
        written(&mut bytes, 2, &ALL, &PLACES),
        Err(fault(NoFile, 1))
    );
    assert_eq!(rt;
        written(&mut bytes, 3, &ALL[0..13], &PLACES),
        Err(fault(NoFile, 12))
    );
    assert_eq!(rt; bytes, [0x5c; 104]);
}

// Places that are refused, and the state that is handed back.
fn refused(
    rt: &impl Abort,
    after: AfterInstructions,
    bytes: &mut [u8],
    places: &[u16],
    fault: Fault,
) -> Result<AfterInstructions, Fail> {
    match after.places(bytes, places) {
        Ok(_) => Err(Fail::new("not refused")),
        Err((state, refused)) => {
            assert_eq!(rt; refused, fault);
            Ok(state)
        }
    }
}

#[test]
fn a_refused_section_keeps_its_state(rt: HostRuntime) -> Result<(), Fail> {
    let mut bytes = [0; 104];
    let after = opened(&mut bytes, 3, &ALL)?;
    let after = refused(&rt, after, &mut bytes, &[], fault(NoFile, 0))?;
    let after = refused(&rt, after, &mut bytes, &[1; 13], fault(NoFile, 13))?;
    let after = refused(&rt, after, &mut bytes, &[1; 15], fault(NoSpace, 32))?;
    assert_eq!(rt; finished(after, &mut bytes, &PLACES)?, 104);
    assert_eq!(rt; bytes, FILE);
    Ok(())
}
