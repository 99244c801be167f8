ghost use Rattle.engine.specs.Sound.{Sound};

use crate::rows::Rows;

mod reading;
mod refusing;
mod writing;

// All that an engine knows, but its bank: rows that are sound.
#[derive(Drop)]
pub(crate) struct Tables {
    rows: Rows,
    ghost sound: { Sound rows.tasks rows.pairs rows.hands rows.rounds },
}
