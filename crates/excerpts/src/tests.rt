use crate::line_at;
use std::test::Fail;

#[test]
fn counts_lines_and_columns_from_one(rt: HostRuntime) {
    let text = b"one\n\ttwo\n\nend";
    let first = line_at(text, 0);
    assert_eq!(rt; (first.line, first.column), (1, 1));
    let newline = line_at(text, 3);
    assert_eq!(rt; (newline.line, newline.column), (1, 4));
    let second = line_at(text, 6);
    assert_eq!(rt; (second.line, second.column), (2, 3));
    let empty = line_at(text, 9);
    assert_eq!(rt; (empty.line, empty.column), (3, 1));
    let end = line_at(text, 99);
    assert_eq!(rt; (end.line, end.column), (4, 4));
}

#[test]
fn shows_the_line_with_a_caret(rt: HostRuntime) -> Result<(), Fail> {
    let heap = rt.alloc();
    let shown = format!(in heap; "{}", line_at(b"one\n\tt\xffo\n", 6))?;
    assert_eq!(rt; shown.as_str(), "line 2, column 3\n\tt?o\n\t ^");
    Ok(())
}
