// Code as people read it: addresses, places and instructions, with names beside points where a list is at hand.
use crate::failure::Failure;
use instructions::Instruction;
use names::NameList;
use std::str::from_utf8;

pub(crate) fn print_code(
    rt: &HostRuntime,
    names: Option<NameList>,
    instructions: &[Instruction],
    places: &[u16],
) -> Result<(), Failure> {
    println!(rt; "address  place  instruction")?;
    for (address, (instruction, place)) in instructions.iter().zip(places).enumerate() {
        print!(rt; "{address:>7}  {place:>5}  {instruction}")?;
        match (names, *instruction) {
            (Some(names), Instruction::Load(point) | Instruction::Save(point)) => {
                let name = name_of(&names, usize::from(point));
                println!(rt; "  {name}")?;
            }
            _ => println!(rt)?,
        }
    }
    Ok(())
}

pub(crate) fn name_of<'a>(names: &NameList<'a>, point: usize) -> &'a str {
    names
        .name(point)
        .and_then(|name| from_utf8(name).ok())
        .unwrap_or("?")
}
