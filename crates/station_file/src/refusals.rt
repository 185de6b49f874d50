// The refusals of files.
ghost use Rattle.std.specs.Prelude.{◌≡◌};
ghost use Rattle.faults.specs.Numbers.{fault_of};

use faults::{Fault, FileCause, Layer};

// The figure is the size that found no space, or the index or the position of what is wrong.
pub(crate) fn refused(cause: FileCause, figure: usize) -> Fault
    ensures { result ≡ fault_of (Layer.File cause) figure }
{
    Fault::new(Layer::File(cause), figure)
}
