// Every instruction with its code, what it takes and what it leaves.
use crate::effect::Effect;
use crate::instruction::Instruction;
use arith::Comparison;

#[test]
fn codes_and_effects(rt: HostRuntime) {
    let all = [
        (Instruction::Push(-7), 0, 1),
        (Instruction::Load(63), 0, 1),
        (Instruction::Save(0), 1, 1),
        (Instruction::Pop, 1, 0),
        (Instruction::Add, 2, 1),
        (Instruction::Sub, 2, 1),
        (Instruction::Mul, 2, 1),
        (Instruction::Div, 2, 1),
        (Instruction::Cmp(Comparison::Less), 2, 1),
        (Instruction::Inv, 1, 1),
        (Instruction::And, 2, 1),
        (Instruction::Or, 2, 1),
        (Instruction::JumpF(1024), 1, 0),
        (Instruction::Jump(0), 0, 0),
    ];
    for (i, (instruction, takes, leaves)) in all.iter().enumerate() {
        assert_eq!(rt; instruction.code() as usize, i);
        let effect = Effect {
            takes: *takes,
            leaves: *leaves,
        };
        assert_eq!(rt; instruction.effect(), effect);
    }
}
