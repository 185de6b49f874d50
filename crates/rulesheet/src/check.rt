// `rulesheet check [--code] NAMES SHEET`
use crate::code::Code;
use crate::failure::Failure;
use crate::input::Sheet;
use crate::listing::{name_of, print_code};
use faults::Fault;
use folds::{CodeLength, Measure, PointsUsed, StackDepth};
use names::NameList;
use tables::{Kind, Row};

// The words are the two files, with `--code` before or behind them.
pub(crate) fn check(rt: &HostRuntime, words: &[String]) -> Result<(), Failure> {
    let (list_path, sheet_path, with_code) = match words {
        [list, sheet] => (list, sheet, false),
        [flag, list, sheet] if flag.as_str() == "--code" => (list, sheet, true),
        [list, sheet, flag] if flag.as_str() == "--code" => (list, sheet, true),
        _ => return Err(Failure::tell(rt, "check takes a name list and a sheet, and --code")),
    };
    table(rt, list_path.as_str(), sheet_path.as_str(), with_code)
}

fn table(
    rt: &HostRuntime,
    list_path: &str,
    sheet_path: &str,
    with_code: bool,
) -> Result<(), Failure> {
    let sheet = Sheet::read(rt, list_path, sheet_path)?;
    let names = sheet.names(rt)?;
    print_rows(rt, &names, sheet.rows.as_slice())?;
    print_measures(rt, &names, &sheet)?;
    let code = Code::of(rt, &names, &sheet)?;
    let count = code.instructions.len();
    println!(rt; "{count} instructions")?;
    if with_code {
        print_code(
            rt,
            Some(names),
            code.instructions.as_slice(),
            code.places.as_slice(),
        )?;
    }
    Ok(())
}

fn print_rows(rt: &HostRuntime, names: &NameList, rows: &[Row]) -> Result<(), Failure> {
    let count = rows.len();
    println!(rt; "{count} rows")?;
    println!(rt; "  row  kind     value       size  place")?;
    for (i, row) in rows.iter().enumerate() {
        let Row {
            kind,
            value,
            size,
            place,
        } = *row;
        print!(rt; "{i:>5}  {kind:<7}  {value:<10}  {size:>4}  {place:>5}")?;
        match (kind, usize::try_from(value)) {
            (Kind::Name | Kind::Set, Ok(point)) => {
                let name = name_of(names, point);
                println!(rt; "  {name}")?;
            }
            _ => println!(rt)?,
        }
    }
    Ok(())
}

// The table's measures, as the compiler and the station will find them.
fn print_measures(rt: &HostRuntime, names: &NameList, sheet: &Sheet) -> Result<(), Failure> {
    let rows = sheet.rows.as_slice();
    let mut slots = vec![in rt.alloc(); 0u32; rows.len()]?;
    let mut sets = vec![in rt.alloc(); 0u64; rows.len()]?;
    let (length, depth, used) = measured(
        rows,
        names.count(),
        slots.as_mut_slice(),
        sets.as_mut_slice(),
    )
    .map_err(|fault| sheet.refused(rt, fault))?;
    println!(rt; "code length {length}, depth {depth}")?;
    print!(rt; "points used")?;
    // by number, since the number is what the set of points is asked for
    for point in 0..names.count() {
        if point < 64 && (used >> point) & 1 == 1 {
            let name = name_of(names, point);
            print!(rt; " {name}")?;
        }
    }
    println!(rt)?;
    Ok(())
}

// Code length, depth, and the set of points used.
fn measured(
    rows: &[Row],
    points: usize,
    slots: &mut [u32],
    sets: &mut [u64],
) -> Result<(u32, u32, u64), Fault> {
    let length = CodeLength.measure(rows, points, slots)?;
    let depth = StackDepth.measure(rows, points, slots)?;
    let used = PointsUsed.measure(rows, points, sets)?;
    Ok((length, depth, used))
}
