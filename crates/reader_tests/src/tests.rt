// Sheets that are read, and sheets that are refused. A row is written as its sign, value, size and place.
use faults::Fault;
use reader::read;
use std::process::Abort;
use std::test::Fail;
use tables::{Kind, Row};

const NAMES: &[u8] = b"locked\nweight\nback\n";

// What the slots hold before reading, so that a slot that stays can be told from a blank one.
const JUNK: Row = Row {
    kind: Kind::Joint,
    value: -1,
    size: 9,
    place: 9,
};

fn kind_of(sign: u8) -> Kind {
    match sign {
        b'#' => Kind::Number,
        b'p' => Kind::Name,
        b'+' => Kind::Add,
        b'-' => Kind::Sub,
        b'*' => Kind::Mul,
        b'/' => Kind::Div,
        b't' => Kind::Truth,
        b'?' => Kind::Compare,
        b'!' => Kind::Not,
        b'&' => Kind::And,
        b'|' => Kind::Or,
        b'=' => Kind::Set,
        b'i' => Kind::If,
        b'e' => Kind::IfElse,
        b'w' => Kind::While,
        _ => Kind::Joint,
    }
}

// The sheet has just these rows, and the slots behind them are blank.
fn reads(rt: &impl Abort, sheet: &[u8], expected: &[(u8, i32, u16, u16)]) -> Result<(), Fail> {
    let mut rows = [JUNK; 40];
    let needed = read(NAMES, sheet, &mut rows).ok().ok_or("it is a sheet")?;
    assert_eq!(rt; needed, expected.len());
    for (row, want) in rows.iter().zip(expected.iter()) {
        let (sign, value, size, place) = *want;
        assert_eq!(rt;
            *row,
            Row {
                kind: kind_of(sign),
                value,
                size,
                place,
            }
        );
    }
    for row in rows.iter().skip(expected.len()) {
        assert_eq!(rt; *row, Row::blank());
    }
    Ok(())
}

// The refusal's number and figure, or zeros for a sheet.
fn verdict(answer: Result<usize, Fault>) -> (u8, u64) {
    match answer {
        Ok(_) => (0, 0),
        Err(fault) => (fault.number(), fault.figure),
    }
}

// The sheet is refused so, and every slot is blank.
fn refuses(rt: &impl Abort, sheet: &[u8], number: u8, figure: u64) {
    let mut rows = [JUNK; 40];
    assert_eq!(rt; verdict(read(NAMES, sheet, &mut rows)), (number, figure));
    for row in rows.iter() {
        assert_eq!(rt; *row, Row::blank());
    }
}

#[test]
fn sums_group_from_the_left(rt: HostRuntime) -> Result<(), Fail> {
    reads(
        &rt,
        b"back = 7 / 2;",
        &[
            (b'#', 7, 1, 7),
            (b'#', 2, 1, 11),
            (b'/', 0, 3, 9),
            (b'=', 2, 4, 0),
        ],
    )?;
    reads(
        &rt,
        b"back = 5 - 2 - 1;",
        &[
            (b'#', 5, 1, 7),
            (b'#', 2, 1, 11),
            (b'-', 0, 3, 9),
            (b'#', 1, 1, 15),
            (b'-', 0, 5, 13),
            (b'=', 2, 6, 0),
        ],
    )?;
    reads(
        &rt,
        b"weight=1+2*(locked-3);",
        &[
            (b'#', 1, 1, 7),
            (b'#', 2, 1, 9),
            (b'p', 0, 1, 12),
            (b'#', 3, 1, 19),
            (b'-', 0, 3, 18),
            (b'*', 0, 5, 10),
            (b'+', 0, 7, 8),
            (b'=', 1, 8, 0),
        ],
    )
}

#[test]
fn conditions_group_from_the_right(rt: HostRuntime) -> Result<(), Fail> {
    reads(
        &rt,
        b"if(true||false||true){back=1;}",
        &[
            (b't', 1, 1, 3),
            (b't', 0, 1, 9),
            (b't', 1, 1, 16),
            (b'|', 0, 3, 14),
            (b'|', 0, 5, 7),
            (b'#', 1, 1, 27),
            (b'=', 2, 2, 22),
            (b'i', 0, 8, 0),
        ],
    )?;
    reads(
        &rt,
        b"while(!true&&false&&1!=2||true){back=1;}",
        &[
            (b't', 1, 1, 7),
            (b'!', 0, 2, 6),
            (b't', 0, 1, 13),
            (b'#', 1, 1, 20),
            (b'#', 2, 1, 23),
            (b'?', 5, 3, 21),
            (b'&', 0, 5, 18),
            (b'&', 0, 8, 11),
            (b't', 1, 1, 26),
            (b'|', 0, 10, 24),
            (b'#', 1, 1, 37),
            (b'=', 2, 2, 32),
            (b'w', 0, 13, 0),
        ],
    )
}

#[test]
fn brackets_of_literals(rt: HostRuntime) {
    let mut rows = [JUNK; 8];
    assert_eq!(rt;
        verdict(read(NAMES, b"if((back)<=1){back=1;}", &mut rows)),
        (0, 0)
    );
    assert_eq!(rt;
        verdict(read(NAMES, b"if((back<=1)){back=1;}", &mut rows)),
        (0, 0)
    );
    assert_eq!(rt;
        verdict(read(NAMES, b"if(((back))<=1){back=1;}", &mut rows)),
        (0, 0)
    );
    assert_eq!(rt;
        verdict(read(NAMES, b"if(((back)<=(1))){back=1;}", &mut rows)),
        (0, 0)
    );
    // Without a partner the look goes to the end: a sum is read, and the end cuts it short.
    refuses(&rt, b"if ((back", 6, 9);
    // Behind its partner a clue is not seen.
    refuses(&rt, b"if ((back) && true) { back = 1; }", 6, 11);
    refuses(&rt, b"if ((back + 1 < 2) + 3 < 4) { back = 1; }", 6, 19);
}

#[test]
fn commands_and_places(rt: HostRuntime) -> Result<(), Fail> {
    reads(
        &rt,
        b"back = 1; weight = 2; locked = 3;",
        &[
            (b'#', 1, 1, 7),
            (b'=', 2, 2, 0),
            (b'#', 2, 1, 19),
            (b'=', 1, 2, 10),
            (b'#', 3, 1, 31),
            (b'=', 0, 2, 22),
            (b'j', 0, 5, 22),
            (b'j', 0, 8, 10),
        ],
    )?;
    reads(
        &rt,
        b"if (back > 0) { back = 1; } else { while (false) { back = 2; } back = 3; }",
        &[
            (b'p', 2, 1, 4),
            (b'#', 0, 1, 11),
            (b'?', 2, 3, 9),
            (b'#', 1, 1, 23),
            (b'=', 2, 2, 16),
            (b't', 0, 1, 42),
            (b'#', 2, 1, 58),
            (b'=', 2, 2, 51),
            (b'w', 0, 4, 35),
            (b'#', 3, 1, 70),
            (b'=', 2, 2, 63),
            (b'j', 0, 7, 63),
            (b'e', 0, 13, 0),
        ],
    )
}

#[test]
fn refusals_at_their_places(rt: HostRuntime) {
    refuses(&rt, b"", 6, 0);
    refuses(&rt, b" \t\r\n", 6, 4);
    // A byte that begins no token, wherever reading comes to it.
    refuses(&rt, b"@", 3, 0);
    refuses(&rt, b"back @= 1;", 3, 5);
    refuses(&rt, b"back = 1 & 2;", 3, 9);
    refuses(&rt, b"back = 1; \xc3", 3, 10);
    refuses(&rt, b"if (true | false) { back = 1; }", 3, 9);
    refuses(&rt, b"back = + @", 6, 7);
    // Numbers.
    refuses(&rt, b"back = 2147483648;", 4, 7);
    refuses(&rt, b"if (99999999999 < 1) { back = 1; }", 4, 4);
    refuses(&rt, b"back 2147483648;", 6, 5);
    // Names.
    refuses(&rt, b"back = front;", 5, 7);
    refuses(&rt, b"front = back;", 5, 0);
    refuses(&rt, b"while (front > 1) { back = 1; }", 5, 7);
    refuses(&rt, b"back front = 1;", 6, 5);
    refuses(&rt, b"Back = 1;", 5, 0);
}

#[test]
fn tokens_that_no_rule_takes(rt: HostRuntime) {
    refuses(&rt, b"back = 1 + ;", 6, 11);
    refuses(&rt, b"if (back) { back = 1; }", 6, 8);
    refuses(&rt, b"else { back = 1; }", 6, 0);
    refuses(&rt, b"back = 1; else { back = 1; }", 6, 10);
    refuses(
        &rt,
        b"if (true) { back = 1; } else { back = 2; } else { back = 3; }",
        6,
        43,
    );
    refuses(&rt, b"if (true) { }", 6, 12);
    refuses(&rt, b"if (true) back = 1;", 6, 10);
    refuses(&rt, b"if true { back = 1; }", 6, 3);
    refuses(&rt, b"if = 1;", 6, 3);
    refuses(&rt, b"while (true) { back = 1; ", 6, 25);
    refuses(&rt, b"back = 1; }", 6, 10);
    refuses(&rt, b"back = 1", 6, 8);
    refuses(&rt, b"back = (1;", 6, 9);
    refuses(&rt, b"back = 1 < 2;", 6, 9);
    refuses(&rt, b"back = true;", 6, 7);
    refuses(&rt, b"if (1 < 2 < 3) { back = 1; }", 6, 10);
    refuses(&rt, b"if (true true) { back = 1; }", 6, 9);
    refuses(&rt, b"if (1 < ) { back = 1; }", 6, 8);
    refuses(&rt, b"if (!) { back = 1; }", 6, 5);
}

// Long sheets are written piece by piece into blanks.
fn write(text: &mut [u8], at: usize, piece: &[u8]) {
    for (k, byte) in piece.iter().enumerate() {
        let place = at.saturating_add(k);
        if place < text.len() {
            text[place] = *byte;
        }
    }
}

fn write_brackets(text: &mut [u8], count: usize) {
    for i in 0..count {
        write(text, i.saturating_add(5), b"(");
        write(text, i.saturating_add(70), b")");
    }
}

// So many brackets round a number, behind `back=`.
fn nested(count: usize) -> (u8, u64) {
    let mut text = [b' '; 128];
    write(&mut text, 0, b"back=");
    write_brackets(&mut text, count);
    write(&mut text, 60, b"1");
    write(&mut text, 127, b";");
    let mut rows = [JUNK; 2];
    verdict(read(NAMES, &text, &mut rows))
}

#[test]
fn thirty_two_brackets(rt: HostRuntime) {
    assert_eq!(rt; nested(0), (0, 0));
    assert_eq!(rt; nested(32), (0, 0));
    assert_eq!(rt; nested(33), (7, 37));
    assert_eq!(rt; nested(40), (7, 37));
}

fn write_blocks(text: &mut [u8], depth: usize) {
    for i in 0..depth {
        write(text, i.saturating_mul(9), b"if(true){");
        write(text, i.saturating_add(600), b"}");
    }
}

// So many blocks, one in the other.
fn blocks(depth: usize) -> (u8, u64) {
    let mut text = [b' '; 1024];
    write_blocks(&mut text, depth);
    write(&mut text, 500, b"back=1;");
    let mut rows = [JUNK; 120];
    verdict(read(NAMES, &text, &mut rows))
}

#[test]
fn thirty_two_blocks(rt: HostRuntime) {
    assert_eq!(rt; blocks(32), (0, 0));
    // The bracket of the condition would be open beside 32 blocks.
    assert_eq!(rt; blocks(33), (7, 290));
    assert_eq!(rt; blocks(40), (7, 290));
}

#[test]
fn lengths_of_sheets(rt: HostRuntime) {
    let mut longest = [b' '; 8192];
    write(&mut longest, 0, b"back = 1;");
    let mut rows = [JUNK; 2];
    assert_eq!(rt; verdict(read(NAMES, &longest, &mut rows)), (0, 0));
    let mut longer = [b' '; 8193];
    write(&mut longer, 0, b"back = 1;");
    assert_eq!(rt; verdict(read(NAMES, &longer, &mut rows)), (2, 8192));
    assert_eq!(rt; rows[1], Row::blank());
}

#[test]
fn the_list_is_judged_first(rt: HostRuntime) {
    let mut rows = [JUNK; 2];
    assert_eq!(rt; verdict(read(b"1\n", &[b' '; 8193], &mut rows)), (1, 0));
    assert_eq!(rt; verdict(read(b"a\na\n", b"", &mut rows)), (1, 2));
    // And then the slots stay.
    assert_eq!(rt; rows[0], JUNK);
}

#[test]
fn slots(rt: HostRuntime) {
    let mut rows = [JUNK; 4];
    assert_eq!(rt; verdict(read(NAMES, b"back = 7 / 2;", &mut rows)), (0, 0));
    let mut few = [JUNK; 3];
    assert_eq!(rt; verdict(read(NAMES, b"back = 7 / 2;", &mut few)), (8, 4));
    assert_eq!(rt; few[0], Row::blank());
    assert_eq!(rt; verdict(read(NAMES, b"back = 7 / 2", &mut few)), (6, 12));
    assert_eq!(rt; verdict(read(NAMES, b"back = 1;", &mut few[..0])), (8, 2));
}

fn write_commands(text: &mut [u8], count: usize) {
    for i in 0..count {
        write(text, i.saturating_mul(4), b"a=1;");
    }
}

#[test]
fn more_rows_than_a_table_has(rt: HostRuntime) {
    let mut text = [b' '; 8192];
    let mut rows = [JUNK; 2100];
    write_commands(&mut text, 683);
    assert_eq!(rt; read(b"a\n", &text, &mut rows).ok(), Some(2048));
    write_commands(&mut text, 684);
    assert_eq!(rt; verdict(read(b"a\n", &text, &mut rows)), (8, 2051));
    write_commands(&mut text, 2048);
    assert_eq!(rt; verdict(read(b"a\n", &text, &mut rows)), (8, 6143));
    assert_eq!(rt; rows[0], Row::blank());
}

fn write_ones(text: &mut [u8], from: usize, count: usize) {
    for i in 0..count {
        write(text, i.saturating_mul(2).saturating_add(from), b"1+");
    }
}

// The longest sheet with the most brackets, each of which is looked through to the one comparison.
#[test]
fn the_longest_looks(rt: HostRuntime) {
    let mut text = [b')'; 8192];
    write(&mut text, 0, b"if((((((((((((((((((((((((((((((((");
    write_ones(&mut text, 34, 4057);
    write(&mut text, 8148, b"1<1");
    write(&mut text, 8183, b"{back=1;}");
    let mut rows = [JUNK; 8];
    assert_eq!(rt; verdict(read(NAMES, &text, &mut rows)), (8, 8120));
}

#[test]
fn long_chains(rt: HostRuntime) {
    let mut text = [b'!'; 1024];
    write(&mut text, 0, b"if(");
    write(&mut text, 1010, b"true){back=1;}");
    let mut rows = [JUNK; 1100];
    assert_eq!(rt; read(NAMES, &text, &mut rows).ok(), Some(1007 + 4));
    assert_eq!(rt; rows[0].place, 1010);
    assert_eq!(rt; rows[1007].place, 3);
}
