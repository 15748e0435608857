// A run of a job over tables that it borrows.
ghost use Rattle.pacer.specs.Index.{Indexed};

use crate::state::State;
use crate::tables::Tables;

/// The run of a job: what it reads for as long as it lives, and how far it has come. Its index is right.
#[derive(Drop)]
pub struct Run<'a> {
    pub(crate) tables: Tables<'a>,
    pub(crate) state: State,
    pub ghost ready: { Indexed tables state },
}
