ghost use Rattle.forest.specs.Groves.{tables_of};
ghost use Rattle.forest.specs.Sound.{Sound};

use crate::tables::Tables;
use crate::trees::Trees;

pub mod calls;
mod guards;

// A bank over its trees.
#[derive(Drop)]
pub struct Forest<T: Trees> {
    pub(crate) tables: Tables<T>,
    ghost sound: { ∥ Sound T.layout (tables_of T.grove tables) ∥₁ },
}
