//! Where a session is.

use pair_table::PairTable;
use site_store::Site;

/// Where a session is: before its start it has a table of its own, and from then on a site.
#[derive(Drop)]
pub(crate) enum SessionPlace<V> {
    Unstarted(PairTable),
    Started(Site<V>),
}
