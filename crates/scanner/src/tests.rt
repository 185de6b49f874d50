// Tokens beside each other, what begins none, and the look ahead.
use crate::cursor::Cursor;
use crate::position::Position;
use crate::scan::token_at;
use crate::token::{Kind, Symbol, Token};
use arith::Comparison;

const PAIRS: [(u8, u8, Symbol); 6] = [
    (b'<', b'=', Symbol::Compare(Comparison::LessOrEqual)),
    (b'>', b'=', Symbol::Compare(Comparison::GreaterOrEqual)),
    (b'=', b'=', Symbol::Compare(Comparison::Equal)),
    (b'!', b'=', Symbol::Compare(Comparison::NotEqual)),
    (b'&', b'&', Symbol::And),
    (b'|', b'|', Symbol::Or),
];

fn token(kind: Kind, start: usize, end: usize) -> Token {
    Token { kind, start, end }
}

#[test]
fn each_two_sign_token_beside_each_other(rt: HostRuntime) {
    for (a, b, left) in PAIRS {
        for (c, d, right) in PAIRS {
            let text = [a, b, c, d];
            let mut cursor = Cursor::new(&text);
            assert_eq!(rt; cursor.peek(), token(Kind::Sign(left), 0, 2));
            assert_eq!(rt; cursor.next(), token(Kind::Sign(left), 0, 2));
            assert_eq!(rt; cursor.next(), token(Kind::Sign(right), 2, 4));
            assert_eq!(rt; cursor.next(), token(Kind::End, 4, 4));
            assert_eq!(rt; cursor.position, Position { at: 4 });
        }
    }
}

#[test]
fn each_sign_of_one_byte(rt: HostRuntime) {
    let signs = [
        (b'{', Symbol::OpenBlock),
        (b'}', Symbol::CloseBlock),
        (b'(', Symbol::Open),
        (b')', Symbol::Close),
        (b';', Symbol::Semicolon),
        (b'=', Symbol::Becomes),
        (b'+', Symbol::Plus),
        (b'-', Symbol::Minus),
        (b'*', Symbol::Times),
        (b'/', Symbol::Over),
        (b'!', Symbol::Not),
        (b'<', Symbol::Compare(Comparison::Less)),
        (b'>', Symbol::Compare(Comparison::Greater)),
    ];
    for (byte, symbol) in signs {
        for behind in [b' ', b'a', b'<', b'0'] {
            let text = [byte, behind];
            assert_eq!(rt; token_at(&text, 0), token(Kind::Sign(symbol), 0, 1));
        }
    }
}

#[test]
fn tokens_and_their_places(rt: HostRuntime) {
    let cases = [
        ("", 0, Kind::End, 0, 0),
        (" \t\r\n", 0, Kind::End, 4, 4),
        ("a", 7, Kind::End, 7, 7),
        ("12ab", 0, Kind::Number, 0, 2),
        ("12ab", 2, Kind::Word, 2, 4),
        ("ab12;", 0, Kind::Word, 0, 4),
        ("_", 0, Kind::Word, 0, 1),
        ("\r\n\t 007 ", 0, Kind::Number, 4, 7),
        (
            "<==",
            0,
            Kind::Sign(Symbol::Compare(Comparison::LessOrEqual)),
            0,
            2,
        ),
        ("<==", 2, Kind::Sign(Symbol::Becomes), 2, 3),
        (
            "< =",
            0,
            Kind::Sign(Symbol::Compare(Comparison::Less)),
            0,
            1,
        ),
        ("&&&", 2, Kind::Stray, 2, 3),
        ("&", 0, Kind::Stray, 0, 1),
        (" | |", 0, Kind::Stray, 1, 2),
        ("&|", 0, Kind::Stray, 0, 1),
        ("a\u{b}", 1, Kind::Stray, 1, 2),
        ("é", 0, Kind::Stray, 0, 1),
        ("aé", 0, Kind::Word, 0, 1),
    ];
    for (text, at, kind, start, end) in cases {
        assert_eq!(rt; token_at(text.as_bytes(), at), token(kind, start, end));
    }
}

#[test]
fn the_bytes_of_a_token(rt: HostRuntime) {
    let text = b"back = 12;";
    let cases = [
        (token_at(text, 0), "back"),
        (token_at(text, 6), "12"),
        (token_at(text, 10), ""),
        (token(Kind::Word, 8, 99), "2;"),
        (token(Kind::Word, 99, 100), ""),
    ];
    for (told, bytes) in cases {
        assert_eq!(rt; told.bytes(text), bytes.as_bytes());
    }
}

#[test]
fn the_look_leaves_the_position(rt: HostRuntime) {
    let cases = [
        ("a < 1)", true),
        ("a + 1) < 2", false),
        ("(a) >= b)", true),
        ("(a * (b))) == 1", false),
        ("((a)) + 1 != b)", true),
        (") || a", false),
        ("!a)", true),
        ("a && b)", true),
        ("true)", true),
        ("false", true),
        ("trues + fals)", false),
        ("a + (b", false),
        ("(a <= b", true),
        ("a } ; = 1 { > 2)", true),
        ("a & < b)", false),
        ("", false),
    ];
    for (text, answer) in cases {
        let mut cursor = Cursor::new(text.as_bytes());
        assert_eq!(rt; cursor.opens_condition(), answer);
        assert_eq!(rt; cursor.position, Position { at: 0 });
    }
}
