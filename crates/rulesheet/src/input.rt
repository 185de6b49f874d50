// What tasks are given: files, and a name list and a sheet read from two of them.
use crate::failure::Failure;
use excerpts::line_at;
use faults::{CompilerCause, Fault, Layer, ReaderCause, RunCause};
use names::{NameList, first_bad_line};
use std::fs;
use tables::{MOST_ROWS, Row};

pub(crate) fn file(rt: &HostRuntime, path: &str) -> Result<Vec<u8>, Failure> {
    fs::read(rt, path).map_err(|e| Failure::tell(rt, format_args!("cannot read {path}: {e}")))
}

// The names of a list.
pub(crate) fn name_list<'a>(
    rt: &HostRuntime,
    path: &str,
    text: &'a [u8],
) -> Result<NameList<'a>, Failure> {
    NameList::read(text).map_err(|fault| refused_list(rt, path, text, fault))
}

// Tells that a list is refused, and which line breaks which rule.
fn refused_list(rt: &HostRuntime, path: &str, text: &[u8], fault: Fault) -> Failure {
    match first_bad_line(text) {
        Some(bad) => Failure::tell(rt, format_args!("{path}: {bad}")),
        None => Failure::tell(rt, format_args!("{path}: {fault}")),
    }
}

// A name list and a sheet, by their files, and the rows of the sheet's table.
#[derive(Drop)]
pub(crate) struct Sheet<'a> {
    list_path: &'a str,
    list: Vec<u8>,
    path: &'a str,
    pub(crate) text: Vec<u8>,
    pub(crate) rows: Vec<Row>,
}

impl<'a> Sheet<'a> {
    // The sheet in the second file under the names in the first.
    pub(crate) fn read(
        rt: &HostRuntime,
        list_path: &'a str,
        path: &'a str,
    ) -> Result<Sheet<'a>, Failure> {
        let list = file(rt, list_path)?;
        let text = file(rt, path)?;
        let mut rows = vec![in rt.alloc(); Row::blank(); MOST_ROWS]?;
        let read = reader::read(list.as_slice(), text.as_slice(), rows.as_mut_slice());
        let count = read.map_err(|fault| match fault.layer {
            Layer::Reader(ReaderCause::BadList) => refused_list(
                rt,
                list_path,
                list.as_slice(),
                fault,
            ),
            _ => refused(rt, path, text.as_slice(), fault),
        })?;
        rows.truncate(count);
        Ok(Sheet {
            list_path,
            list,
            path,
            text,
            rows,
        })
    }

    pub(crate) fn names(&self, rt: &HostRuntime) -> Result<NameList<'_>, Failure> {
        name_list(rt, self.list_path, self.list.as_slice())
    }

    pub(crate) fn refused(&self, rt: &HostRuntime, fault: Fault) -> Failure {
        refused(rt, self.path, self.text.as_slice(), fault)
    }
}

// Tells a refusal of a sheet, and its line with a caret where the figure is a place in it.
fn refused(rt: &HostRuntime, path: &str, text: &[u8], fault: Fault) -> Failure {
    if figure_is_a_place(fault.layer) {
        let line = line_at(text, usize::try_from(fault.figure).unwrap_or(text.len()));
        Failure::tell(rt, format_args!("{path}: {fault}\n{line}"))
    } else {
        Failure::tell(rt, format_args!("{path}: {fault}"))
    }
}

fn figure_is_a_place(layer: Layer) -> bool {
    match layer {
        Layer::Reader(ReaderCause::BadList | ReaderCause::SheetTooLong) => false,
        Layer::Reader(_) => true,
        Layer::Compiler(CompilerCause::TooDeep) => true,
        Layer::Run(RunCause::ZeroDivisor | RunCause::StackBreach) => true,
        _ => false,
    }
}
