//! The numbers of sites and of calls of `Db`, and what the calls ask for.
ghost use Rattle.std.specs.Prelude.{◌≡◌, ◌++◌, IfOk, OnOk};
ghost use Rattle.px_types.specs.Sites as sites;

use crate::node::Node;
use crate::numbers::sum;
use px_facts::{Fact, Named, Operation};
use sqlite_items::Items;
use std::alloc::{AllocError, Global};

/// The facts, with the numbers of sites and of calls of `Db` in the order of the text.
pub fn with_sites(alloc: Global, nodes: &[Node]) -> Result<Items<Fact>, AllocError>
    ensures { IfOk result (λ all. all ≡ sites.sited 1 1 nodes.now) }
{
    let mut all = Items::new(alloc);
    let mut call: u16 = 1;
    let mut site: u16 = 1;
    for node in nodes {
        let Fact { ty, named } = node.fact;
        all.push(Fact {
            ty,
            named: with_numbers(call, site, named),
        })?;
        call = call_after(call, named)?;
        site = site_after(site, named)?;
    }
    Ok(all)
}

fn with_numbers(call: u16, site: u16, named: Named) -> Named
    ensures { result ≡ sites.with_numbers call site named }
{
    match named {
        Named::NewObject { class, site: _ } => Named::NewObject { class, site },
        Named::NewArray { site: _ } => Named::NewArray { site },
        Named::Query { number: _, site: _ } => Named::Query { number: call, site },
        Named::Update { number: _ } => Named::Update { number: call },
        _ => named,
    }
}

// The number of the next call of `Db`.
fn call_after(call: u16, named: Named) -> Result<u16, AllocError>
    ensures { IfOk result (λ next. next ≡ sites.call_after call named) }
{
    match named {
        Named::Query { number: _, site: _ } | Named::Update { number: _ } => sum(call, 1),
        _ => Ok(call),
    }
}

// The number of the next site.
fn site_after(site: u16, named: Named) -> Result<u16, AllocError>
    ensures { IfOk result (λ next. next ≡ sites.site_after site named) }
{
    match named {
        Named::NewObject { class: _, site: _ }
        | Named::NewArray { site: _ }
        | Named::Query { number: _, site: _ } => sum(site, 1),
        _ => Ok(site),
    }
}

/// What the calls of `Db` ask for, in the order of the text.
pub fn operations_in(alloc: Global, nodes: &[Node]) -> Result<Items<Operation>, AllocError>
    ensures { IfOk result (λ all. all ≡ sites.operations_in nodes.now) }
{
    let mut all = Items::new(alloc);
    for node in nodes {
        add_operation(alloc, &mut all, &node.operation)?;
    }
    Ok(all)
}

fn add_operation(
    alloc: Global,
    all: &mut Items<Operation>,
    operation: &Option<Operation>,
) -> Result<(), AllocError>
    ensures { OnOk result (all.new ≡ all.old ++ sites.if_any operation.now) }
{
    match operation {
        Some(operation) => all.push(operation.copy(alloc)?),
        None => Ok(()),
    }
}
