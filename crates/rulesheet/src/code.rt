// The code of a sheet that was read.
use crate::failure::Failure;
use crate::input::Sheet;
use compiler::{MOST_INSTRUCTIONS, compile};
use instructions::Instruction;
use names::NameList;

#[derive(Drop)]
pub(crate) struct Code {
    pub(crate) instructions: Vec<Instruction>,
    pub(crate) places: Vec<u16>,
}

impl Code {
    pub(crate) fn of(rt: &HostRuntime, names: &NameList, sheet: &Sheet) -> Result<Code, Failure> {
        let mut instructions = vec![in rt.alloc(); Instruction::Pop; MOST_INSTRUCTIONS]?;
        let mut places = vec![in rt.alloc(); 0u16; MOST_INSTRUCTIONS]?;
        let count = compile(
            sheet.rows.as_slice(),
            names.count(),
            instructions.as_mut_slice(),
            places.as_mut_slice(),
        )
        .map_err(|fault| sheet.refused(rt, fault))?;
        instructions.truncate(count);
        places.truncate(count);
        Ok(Code {
            instructions,
            places,
        })
    }
}
