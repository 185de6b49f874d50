// `rulesheet names NAMES`
use crate::failure::Failure;
use crate::input;
use crate::listing::name_of;

pub(crate) fn names(rt: &HostRuntime, path: &str) -> Result<(), Failure> {
    let text = input::file(rt, path)?;
    let names = input::name_list(rt, path, text.as_slice())?;
    let count = names.count();
    println!(rt; "{count} points")?;
    // by number, since the number is what a list's reader wants to see
    for point in 0..count {
        let name = name_of(&names, point);
        println!(rt; "{point} {name}")?;
    }
    Ok(())
}
