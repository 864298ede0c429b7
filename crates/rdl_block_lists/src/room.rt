//! Room for lists.

use rdl_nodes::Row;
use rdl_tree::Kind;

// How many nodes are of a kind.
pub(crate) fn count_of(rows: &[Row<'_>], kind: Kind) -> usize {
    let mut count: usize = 0;
    for row in rows {
        if row.node.kind == kind {
            count = count.saturating_add(1);
        }
    }
    count
}
