use crate::tables::Tables;

mod calling;
mod leaving;
mod making;
mod signalling;
mod taking;
mod turning;

// An engine over a bank. Nothing is allocated after it is made.
#[derive(Drop)]
pub struct Engine<B> {
    pub(crate) bank: B,
    pub(crate) tables: Tables,
}
