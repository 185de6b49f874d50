// Banks: where a station's points stand, and the drafts that lie over them.
#![tactic(auto)]

mod bank;
mod draft;
mod kept;
mod overlay;
mod registers;

pub use bank::{Bank, MOST_POINTS, Reading, Writing};
pub use draft::Draft;
pub use kept::Kept;
pub use overlay::Overlay;
pub use registers::Registers;
