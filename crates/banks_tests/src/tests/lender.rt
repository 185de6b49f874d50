// What a lender knows after code that is proved over any bank, and so knows nothing of bytes and of drafts. The
// contracts here are the test: each of them is proved from what the banks promise.
ghost use Rattle.std.specs.Prelude.{◌≡◌, ◌++◌, pos};
ghost use Rattle.banks.specs.Points.{wrote};
ghost use Rattle.banks.specs.Kept.{numbers_in, spare, laid};

use banks::{Bank, Draft, Kept};

fn seven<B: Bank>(bank: &mut B)
    ensures value { B.points bank.new ≡ (wrote (B.points bank.old) 0 (pos 7)).1 }
    ensures same { B.fixed bank.new ≡ B.fixed bank.old }
{
    let _ = bank.write(0, 7);
}

fn seven_kept<B: Bank>(bank: &mut B)
    ensures value { B.points bank.new ≡ (wrote (B.points bank.old) 0 (pos 7)).1 }
    ensures same { B.fixed bank.new ≡ B.fixed bank.old }
{
    let mut draft = Draft::new(bank);
    seven(&mut draft);
    draft.keep();
}

fn seven_discarded<B: Bank>(bank: &mut B)
    ensures value { B.points bank.new ≡ B.points bank.old }
    ensures same { B.fixed bank.new ≡ B.fixed bank.old }
{
    let mut draft = Draft::new(bank);
    seven_kept(&mut draft);
    draft.discard();
}

// Every byte afterwards, through a draft and a discarded draft over a draft.
fn seven_in(bytes: &mut [u8])
    ensures { bytes.new ≡ laid (wrote (numbers_in bytes.old) 0 (pos 7)).1 ++ spare bytes.old }
{
    let mut kept = Kept::new(bytes);
    seven_discarded(&mut kept);
    seven_kept(&mut kept);
}

#[test]
fn a_lender_knows_every_byte(rt: HostRuntime) {
    let mut bytes = [9; 6];
    seven_in(&mut bytes);
    assert_eq!(rt; bytes, [7, 0, 0, 0, 9, 9]);
}
