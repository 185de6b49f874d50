// Good and bad name lists, and looking words up.
use crate::bad_line::{BadLine, Complaint};
use crate::judge::first_bad_line;
use crate::name_list::NameList;
use faults::Fault;
use std::alloc::{AllocError, Global};
use std::test::Fail;

#[test]
fn lists_that_break_a_rule(rt: HostRuntime) {
    let cases = [
        ("", 0, 1, Complaint::EmptyList),
        ("\n", 0, 1, Complaint::Blank),
        ("locked", 0, 1, Complaint::NoNewline),
        ("locked\nweight", 7, 2, Complaint::NoNewline),
        ("locked\n\nback\n", 7, 2, Complaint::Blank),
        ("locked\n9lives\n", 7, 2, Complaint::DigitFirst),
        ("locked\r\nweight\r\n", 0, 1, Complaint::BadByte),
        ("locked\nwe ight\n", 7, 2, Complaint::BadByte),
        ("locked\nlänge\n", 7, 2, Complaint::BadByte),
        ("abcdefghijklmnopq\n", 0, 1, Complaint::TooLong),
        ("if\n", 0, 1, Complaint::Reserved),
        ("a\nelse\n", 2, 2, Complaint::Reserved),
        ("while\n", 0, 1, Complaint::Reserved),
        ("true\n", 0, 1, Complaint::Reserved),
        ("false\n", 0, 1, Complaint::Reserved),
        ("a\nb\nc\nb\na\n", 6, 4, Complaint::Repeated(1)),
    ];
    for (text, start, line, complaint) in cases {
        let bad = BadLine {
            start,
            line,
            complaint,
        };
        assert_eq!(rt; first_bad_line(text.as_bytes()), Some(bad));
        assert_eq!(rt; Fault::from(bad).number(), 1);
        assert_eq!(rt; Fault::from(bad).figure, start as u64);
    }
}

#[test]
fn lists_that_are_good(rt: HostRuntime) {
    for text in [
        "locked\n",
        "locked\nweight\nback\n",
        "abcdefghijklmnop\n",
        "_\n__\nIf\niff\n",
        "a1\na_\nA1\n",
    ] {
        assert_eq!(rt; first_bad_line(text.as_bytes()), None);
        assert!(rt; NameList::read(text.as_bytes()).is_ok());
    }
}

// So many different names, each a letter and a digit.
fn many(heap: Global, count: u8) -> Result<Vec<u8>, AllocError> {
    let mut text = Vec::new(heap);
    for i in 0..count {
        text.push(b'a'.saturating_add(i / 10))?;
        text.push(b'0' + i % 10)?;
        text.push(10)?;
    }
    Ok(text)
}

#[test]
fn sixty_four_names_and_one_more(rt: HostRuntime) -> Result<(), Fail> {
    let text = many(rt.alloc(), 64)?;
    assert_eq!(rt; first_bad_line(text.as_slice()), None);
    let names = NameList::read(text.as_slice())
        .ok()
        .ok_or("sixty-four names are a list")?;
    assert_eq!(rt; names.count(), 64);
    assert_eq!(rt; names.point(b"a0"), Some(0));
    assert_eq!(rt; names.point(b"g3"), Some(63));
    assert_eq!(rt; names.point(b"g4"), None);
    assert!(rt; names.name(63) == Some(b"g3"));
    assert!(rt; names.name(64).is_none());
    let more = many(rt.alloc(), 65)?;
    let bad = BadLine {
        start: 192,
        line: 65,
        complaint: Complaint::TooMany,
    };
    assert_eq!(rt; first_bad_line(more.as_slice()), Some(bad));
    Ok(())
}

#[test]
fn words_are_looked_up_whole(rt: HostRuntime) -> Result<(), Fail> {
    let names = NameList::read(b"locked\nweight\nback\n")
        .ok()
        .ok_or("it is a list")?;
    assert_eq!(rt; names.count(), 3);
    for (word, point) in [
        ("locked", Some(0)),
        ("weight", Some(1)),
        ("back", Some(2)),
        ("lock", None),
        ("backs", None),
        ("", None),
        ("Back", None),
    ] {
        assert_eq!(rt; names.point(word.as_bytes()), point);
    }
    Ok(())
}

#[test]
fn a_refusal_says_what_is_wrong(rt: HostRuntime) -> Result<(), Fail> {
    let bad = first_bad_line(b"locked\n9lives\n").ok_or("a digit begins no name")?;
    let text = bad.to_string(rt.alloc())?;
    assert_eq!(rt;
        text.as_str(),
        "reader refusal 1, figure 7: the name list breaks its rules on the line that starts at this byte\nline 2: a name cannot begin with a digit"
    );
    let bad = first_bad_line(b"a\nb\nb\n").ok_or("b stands twice")?;
    let text = bad.to_string(rt.alloc())?;
    assert!(rt;
        text.as_str()
            .ends_with("line 3: the name is that of point 1 already")
    );
    Ok(())
}
