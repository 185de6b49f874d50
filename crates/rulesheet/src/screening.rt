// `rulesheet screen NAMES SHEET [NAME=NUMBER ...] [--allowance N]`
use crate::failure::Failure;
use crate::input::Sheet;
use crate::listing::name_of;
use excerpts::line_at;
use names::NameList;
use screen::Outcome;

// How many steps a sheet may cost where nobody says it.
const ALLOWANCE: u32 = 1_000_000;

// The words after NAMES and SHEET.
pub(crate) fn work_out(
    rt: &HostRuntime,
    list_path: &str,
    sheet_path: &str,
    settings: &[String],
) -> Result<(), Failure> {
    let sheet = Sheet::read(rt, list_path, sheet_path)?;
    let names = sheet.names(rt)?;
    let mut before = vec![in rt.alloc(); 0i32; names.count()]?;
    let allowance = settle(rt, &names, settings, before.as_mut_slice())?;
    let mut after = before.as_slice().to_vec(rt.alloc())?;
    let outcome = screen::work_out(sheet.rows.as_slice(), after.as_mut_slice(), allowance).map_err(
        |fault| sheet.refused(rt, fault),
    )?;
    print_answer(rt, sheet.text.as_slice(), outcome)?;
    print_points(rt, &names, before.as_slice(), after.as_slice())
}

fn print_answer(rt: &HostRuntime, text: &[u8], outcome: Outcome) -> Result<(), Failure> {
    let Outcome { stop, cost } = outcome;
    match stop {
        None => println!(rt; "ended, {cost} steps")?,
        Some(fault) => {
            println!(rt; "stopped, {cost} steps")?;
            println!(rt; "{fault}")?;
            let line = line_at(text, usize::try_from(fault.figure).unwrap_or(0));
            println!(rt; "{line}")?;
        }
    }
    Ok(())
}

// Every point before and after.
fn print_points(
    rt: &HostRuntime,
    names: &NameList,
    before: &[i32],
    after: &[i32],
) -> Result<(), Failure> {
    println!(rt; "point  name              before       after")?;
    for (point, (old, new)) in before.iter().zip(after).enumerate() {
        let name = name_of(names, point);
        println!(rt; "{point:>5}  {name:<16}  {old:<11}  {new}")?;
    }
    Ok(())
}

// Sets the points that the words name, and tells the allowance.
fn settle(
    rt: &HostRuntime,
    names: &NameList,
    words: &[String],
    points: &mut [i32],
) -> Result<u32, Failure> {
    let mut allowance = ALLOWANCE;
    let mut rest = words;
    while let [word, after @ ..] = rest {
        if word.as_str() == "--allowance" {
            let [steps, behind @ ..] = after else {
                return Err(Failure::tell(rt, "a number is to follow --allowance"));
            };
            allowance = allowance_of(rt, steps.as_str())?;
            rest = behind;
        } else {
            set_point(rt, names, word.as_str(), points)?;
            rest = after;
        }
    }
    Ok(allowance)
}

fn allowance_of(rt: &HostRuntime, word: &str) -> Result<u32, Failure> {
    word.parse::<u32>().map_err(|_| {
        Failure::tell(
            rt,
            format_args!("{word} is no allowance; it is a number from 0 to 4294967295"),
        )
    })
}

// NAME=NUMBER
fn set_point(
    rt: &HostRuntime,
    names: &NameList,
    word: &str,
    points: &mut [i32],
) -> Result<(), Failure> {
    let Some((name, number)) = word.split_once('=') else {
        return Err(Failure::tell(rt, format_args!("{word} is not of the form NAME=NUMBER")));
    };
    let Some(point) = names.point(name.as_bytes()) else {
        return Err(Failure::tell(rt, format_args!("{name} is not in the name list")));
    };
    let Ok(value) = number.parse::<i32>() else {
        return Err(Failure::tell(rt, format_args!("{number} is no signed 32-bit number")));
    };
    if let Some(slot) = points.get_mut(point) {
        *slot = value;
    }
    Ok(())
}
