//! What runs at the database server.
ghost use Rattle.std.specs.Prelude.{◌≡◌, ◌<◌, ◌^◌, ◌-◌, length};
ghost use Rattle.px_graph.specs.Loads.{node_load as load_of_node, load_from};

use crate::sides::{is_db, side_at};
use px_code::Side;

fn node_load(sides: &[Side], node: u32, count: u64) -> u64
    ensures { result ≡ load_of_node sides.now node count }
{
    if is_db(side_at(sides, node)) {
        count
    } else {
        0
    }
}

/// The sum of the counts, by node from 1, of the nodes at DB.
pub fn load_of(counts: &[u64], sides: &[Side]) -> u64
    requires counted { length counts.now < 2 ^ 32 - 1 }
    requires fits { load_from 1 counts.now sides.now < 2 ^ 64 }
    ensures { result ≡ load_from 1 counts.now sides.now }
{
    let mut sum: u64 = 0;
    let mut node: u32 = 1;
    for count in counts {
        sum += node_load(sides, node, *count);
        node += 1;
    }
    sum
}
