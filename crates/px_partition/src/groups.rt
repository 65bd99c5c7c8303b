//! The nodes of methods.
ghost use Rattle.std.specs.Prelude.{◌≡◌, ◌<◌, ◌^◌, ◌-◌, [], nat_eq, unwrap_or, length, IfOk};
ghost use Rattle.std.specs.HashMap.{get};
ghost use Rattle.px_partition.specs.Graphs.{groups, AreGroups};

use px_graph::Group;
use px_normal::{Method, Node};
use sqlite_items::Items;
use std::alloc::{AllocError, Global};
use std::collections::HashMap;

// The numbers of nodes, by the method that they stand in.
fn nodes_by(alloc: Global, nodes: &[Node]) -> Result<HashMap<u16, Items<u32>>, AllocError>
    requires few { length nodes.now < 2 ^ 32 - 1 }
    ensures { IfOk result (λ groups. AreGroups groups nodes.now) }
{
    let mut groups = HashMap::new(alloc);
    let mut number: u32 = 0;
    for node in nodes {
        number += 1;
        if let Some(method) = node.method {
            let mut group = groups.remove(&method).unwrap_or(Items::new(alloc));
            group.push(number)?;
            groups.insert(method, group)?;
        }
    }
    Ok(groups)
}

fn nodes_at(groups: &HashMap<u16, Items<u32>>, method: u16) -> &[u32]
    ensures { result.now ≡ unwrap_or (get nat_eq groups.now method) [] }
{
    match groups.get(&method) {
        Some(nodes) => nodes.as_slice(),
        None => &[],
    }
}

/// Of each method the nodes that stand in it.
pub fn groups(alloc: Global, nodes: &[Node], methods: &[Method]) -> Result<Items<Group>, AllocError>
    requires few { length nodes.now < 2 ^ 32 - 1 }
    requires methods { length methods.now < 2 ^ 16 }
    ensures { IfOk result (λ made. made ≡ groups nodes.now 1 methods.now) }
{
    let by = nodes_by(alloc, nodes)?;
    let mut groups = Items::new(alloc);
    let mut method: u16 = 0;
    for _method in methods {
        method += 1;
        let nodes = Items::from_slice(alloc, nodes_at(&by, method))?;
        groups.push(Group { nodes })?;
    }
    Ok(groups)
}
