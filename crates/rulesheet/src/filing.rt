// `rulesheet compile NAMES SHEET FILE` and `rulesheet list FILE [--names NAMES]`
use crate::code::Code;
use crate::failure::Failure;
use crate::input;
use crate::input::Sheet;
use crate::listing::print_code;
use faults::Fault;
use instructions::Instruction;
use names::NameList;
use station_file::{Begin, MOST_INSTRUCTIONS, StationFile};
use std::fs;

// The most bytes a file can have: two counts of two bytes, 1,024 instructions of five, a count and 1,024 places of two.
const MOST_BYTES: usize = 6 + 7 * MOST_INSTRUCTIONS;

pub(crate) fn write(
    rt: &HostRuntime,
    list_path: &str,
    sheet_path: &str,
    path: &str,
) -> Result<(), Failure> {
    let sheet = Sheet::read(rt, list_path, sheet_path)?;
    let names = sheet.names(rt)?;
    let code = Code::of(rt, &names, &sheet)?;
    let mut bytes = vec![in rt.alloc(); 0u8; MOST_BYTES]?;
    let length = laid(
        bytes.as_mut_slice(),
        names.count(),
        code.instructions.as_slice(),
        code.places.as_slice(),
    )
    .map_err(|fault| Failure::tell(rt, format_args!("{path}: {fault}")))?;
    bytes.truncate(length);
    save(rt, path, bytes.as_slice(), code.instructions.len())
}

// The file's bytes, section by section, and how many they are.
fn laid(
    bytes: &mut [u8],
    points: usize,
    instructions: &[Instruction],
    places: &[u16],
) -> Result<usize, Fault> {
    let next = Begin::new()
        .instructions(bytes, points, instructions)
        .map_err(|(_, fault)| fault)?;
    let written = next.places(bytes, places).map_err(|(_, fault)| fault)?;
    Ok(written.length)
}

fn save(rt: &HostRuntime, path: &str, bytes: &[u8], count: usize) -> Result<(), Failure> {
    fs::write(rt, path, bytes).map_err(|e| Failure::tell(
        rt,
        format_args!("cannot write {path}: {e}"),
    ))?;
    let length = bytes.len();
    println!(rt; "{path}: {count} instructions, {length} bytes")?;
    Ok(())
}

// The words after FILE are none, or `--names` and a list.
pub(crate) fn list(rt: &HostRuntime, path: &str, words: &[String]) -> Result<(), Failure> {
    match words {
        [] => show(rt, path, None),
        [flag, list] if flag.as_str() == "--names" => {
            let text = input::file(rt, list.as_str())?;
            let names = input::name_list(rt, list.as_str(), text.as_slice())?;
            show(rt, path, Some(names))
        }
        _ => Err(Failure::tell(
            rt,
            "list takes a file, and --names with a name list after it",
        )),
    }
}

fn show(rt: &HostRuntime, path: &str, names: Option<NameList>) -> Result<(), Failure> {
    let bytes = input::file(rt, path)?;
    let file = StationFile::read(bytes.as_slice()).map_err(|fault| refused(
        rt,
        path,
        bytes.as_slice(),
        fault,
    ))?;
    let points = file.points();
    let count = file.instructions().len();
    println!(rt; "{points} points, {count} instructions")?;
    print_code(rt, names, file.instructions(), file.places())
}

// Tells that a file is refused, and the byte at the refused position.
fn refused(rt: &HostRuntime, path: &str, bytes: &[u8], fault: Fault) -> Failure {
    let length = bytes.len();
    let at = usize::try_from(fault.figure).unwrap_or(length);
    match bytes.get(at) {
        Some(byte) => Failure::tell(
            rt,
            format_args!("{path}: {fault}\nbyte {at} of {length} is {byte}"),
        ),
        None => Failure::tell(
            rt,
            format_args!("{path}: {fault}\nthe file ends at byte {length}"),
        ),
    }
}
