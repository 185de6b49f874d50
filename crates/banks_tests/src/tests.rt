// Every bank is put through the same paces.
mod lender;
mod log;

use banks::{Bank, Draft, Kept, Overlay, Registers};
use faults::{BankCause, Fault, Layer};
use log::Log;
use std::process::Abort;
use std::test::Fail;

// Numbers at the ends of what fits, and the bytes that each of them is in kept memory.
const EXTREMES: [i32; 5] = [i32::MIN, -1, i32::MAX, 0, 0x1234_5678];

const IN_BYTES: [[u8; 4]; 5] = [
    [0, 0, 0, 0x80],
    [0xff, 0xff, 0xff, 0xff],
    [0xff, 0xff, 0xff, 0x7f],
    [0, 0, 0, 0],
    [0x78, 0x56, 0x34, 0x12],
];

fn extreme(point: usize) -> i32 {
    EXTREMES[point % 5]
}

fn no_point(figure: u64) -> Fault {
    Fault {
        layer: Layer::Bank(BankCause::NoPoint),
        figure,
    }
}

// Writes each point, sees that it and no later one changed, and that nothing lies past the end.
fn paces<B: Bank>(rt: &impl Abort, bank: &mut B, count: usize) -> Result<(), Fail> {
    assert_eq!(rt; bank.count(), count);
    for point in 0..count {
        let next = bank.read(point + 1).value;
        assert_eq!(rt; bank.write(point, extreme(point))?.value, extreme(point));
        assert_eq!(rt; bank.read(point).value, Some(extreme(point)));
        assert_eq!(rt; bank.read(point + 1).value, next);
    }
    for past in [count, 64, 255, usize::MAX] {
        if past >= count {
            assert_eq!(rt; bank.read(past).value, None);
            assert_eq!(rt; refusal(bank, past), Some(no_point(past as u64)));
        }
    }
    for point in 0..count {
        assert_eq!(rt; bank.read(point).value, Some(extreme(point)));
    }
    Ok(())
}

fn refusal<B: Bank>(bank: &mut B, point: usize) -> Option<Fault> {
    match bank.write(point, 1) {
        Ok(_) => None,
        Err(fault) => Some(fault),
    }
}

#[test]
fn registers_of_every_size(rt: HostRuntime) -> Result<(), Fail> {
    for count in [0, 1, 63, 64] {
        let mut registers = Registers::new(count)?;
        for point in 0..count {
            assert_eq!(rt; registers.read(point).value, Some(0));
        }
        paces(&rt, &mut registers, count)?;
    }
    for count in [65, 255, usize::MAX] {
        match Registers::new(count) {
            Ok(_) => return Err(Fail::new("too many points")),
            Err(fault) => assert_eq!(rt; fault, no_point(count as u64)),
        }
    }
    Ok(())
}

#[test]
fn kept_memory_of_every_length(rt: HostRuntime) -> Result<(), Fail> {
    for length in [
        0, 1, 2, 3, 4, 5, 6, 7, 255, 256, 257, 258, 259, 260, 261, 262, 263,
    ] {
        let mut memory = [0x5c; 264];
        let count = (length / 4).min(64);
        assert!(rt; length <= 264);
        let mut kept = Kept::new(&mut memory[0..length]);
        paces(&rt, &mut kept, count)?;
        assert_eq!(rt; kept.bytes().len(), length);
        for (i, byte) in memory.iter().enumerate() {
            let point = i / 4;
            let want = if point < count {
                IN_BYTES[point % 5][i % 4]
            } else {
                0x5c
            };
            assert_eq!(rt; *byte, want);
        }
    }
    Ok(())
}

// A draft over a bank whose points are all 0: discarded it leaves nothing, kept it leaves all that it showed.
fn drafted<B: Bank>(rt: &impl Abort, bank: &mut B, count: usize) -> Result<(), Fail> {
    let mut draft = Draft::new(bank);
    paces(rt, &mut draft, count)?;
    draft.discard();
    for point in 0..count {
        assert_eq!(rt; draft.read(point).value, Some(0));
    }
    paces(rt, &mut draft, count)?;
    draft.keep();
    for point in 0..count {
        assert_eq!(rt; bank.read(point).value, Some(extreme(point)));
    }
    Ok(())
}

#[test]
fn drafts_over_registers_and_over_drafts(rt: HostRuntime) -> Result<(), Fail> {
    for count in [0, 1, 63, 64] {
        let mut registers = Registers::new(count)?;
        let mut lower = Draft::new(&mut registers);
        drafted(&rt, &mut lower, count)?;
        lower.discard();
        for point in 0..count {
            assert_eq!(rt; registers.read(point).value, Some(0));
        }
        drafted(&rt, &mut registers, count)?;
    }
    Ok(())
}

#[test]
fn drafts_over_kept_memory(rt: HostRuntime) -> Result<(), Fail> {
    for length in [0, 3, 4, 7, 255, 256, 263] {
        let mut memory = [0; 264];
        let count = (length / 4).min(64);
        assert!(rt; length <= 264);
        let mut kept = Kept::new(&mut memory[0..length]);
        drafted(&rt, &mut kept, count)?;
        for (i, byte) in memory.iter().enumerate() {
            let point = i / 4;
            let want = if point < count {
                IN_BYTES[point % 5][i % 4]
            } else {
                0
            };
            assert_eq!(rt; *byte, want);
        }
    }
    Ok(())
}

// Two overlays over one bank see only their own writes, and keeping one writes its points once, in their order.
#[test]
fn keeping_writes_each_saved_point_once_in_order(rt: HostRuntime) -> Result<(), Fail> {
    let mut log = Log {
        below: Registers::new(64)?,
        points: [0; 64],
        made: 0,
    };
    let mut overlay = Overlay::new();
    let mut other = Overlay::new();
    for point in [63, 5, 0, 5, 63] {
        let _ = overlay.write(&log, point, 7)?;
    }
    let _ = other.write(&log, 5, 8)?;
    assert_eq!(rt; overlay.read(&log, 5).value, Some(7));
    assert_eq!(rt; other.read(&log, 5).value, Some(8));
    assert_eq!(rt; other.read(&log, 63).value, Some(0));
    assert_eq!(rt; log.read(63).value, Some(0));
    overlay.keep(&mut log);
    assert_eq!(rt; log.made, 3);
    assert_eq!(rt; [log.points[0], log.points[1], log.points[2]], [0, 5, 63]);
    assert_eq!(rt; other.read(&log, 63).value, Some(7));
    Ok(())
}
