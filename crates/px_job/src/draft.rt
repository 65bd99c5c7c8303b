//! What the lines so far make of a job.

use crate::job::Call;
use crate::keys::Rows;
use crate::loads::Loads;
use crate::parts::Parts;
use crate::settings::Stood;
use sqlite_items::Items;

#[derive(Drop)]
pub(crate) struct Draft {
    pub(crate) stood: Stood,
    pub(crate) rows: Rows,
    pub(crate) parts: Parts,
    pub(crate) calls: Items<Call>,
    pub(crate) loads: Loads,
    /// None where no line of its form has stood.
    pub(crate) order: Option<Items<u16>>,
}
