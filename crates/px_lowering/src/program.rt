//! A whole program.
ghost use Rattle.std.specs.Prelude.{◌≡◌, ◌++◌, [], ◌∷◌, length, map, IfOk, OnOk};
ghost use Rattle.px_mean.specs.Program.{methods_in as methods_in_members, methods_of as methods_of_classes};
ghost use Rattle.px_lowering.specs.Methods.{all_now};
ghost use Rattle.px_lowering.specs.Programs as programs;

use crate::allocations::{Allocation, in_statement};
use crate::copies::{copy_schema, statements};
use crate::draft::{line_at, next_node};
use crate::facts::code_type;
use crate::method::lower_method;
use px_facts::{Checked, ClassFact, MethodFact, Ty as Static};
use px_normal::{Class, Code, Field, Method, Node, NodeKind, Site};
use px_tree::{self, FieldDecl, Member};
use px_value::{Kind, Text};
use sqlite_items::Items;
use std::alloc::{AllocError, Global};

fn push_methods<'a>(
    methods: &mut Vec<&'a px_tree::Method>,
    members: &'a [Member],
) -> Result<(), AllocError>
    ensures { OnOk result (all_now methods.new.items ≡ all_now methods.old.items ++ methods_in_members members.now) }
{
    for member in members {
        match member {
            Member::Field(_) => {}
            Member::Method(method) => methods.push(method)?,
        }
    }
    Ok(())
}

// The methods in the order of the file, which is that of their numbers.
fn methods_of(
    alloc: Global,
    classes: &[px_tree::Class],
) -> Result<Vec<&px_tree::Method>, AllocError>
    ensures { IfOk result (λ methods. all_now methods.items ≡ methods_of_classes classes.now) }
{
    let mut methods = Vec::new(alloc);
    for class in classes {
        push_methods(&mut methods, class.members.as_slice())?;
    }
    Ok(methods)
}

/// The methods of a program, and the nodes so far.
#[derive(Drop)]
struct Made {
    methods: Items<Method>,
    nodes: Items<Node>,
}

fn lower_methods(
    alloc: Global,
    checked: &Checked,
    sources: &[&px_tree::Method],
    facts: &[MethodFact],
) -> Result<Made, AllocError>
    ensures methods { IfOk result (λ made. made.methods ≡ (programs.lowered_methods checked.now 1 (all_now sources.now) facts.now []).methods) }
    ensures nodes { IfOk result (λ made. made.nodes ≡ (programs.lowered_methods checked.now 1 (all_now sources.now) facts.now []).nodes) }
{
    let mut methods = Items::new(alloc);
    let mut nodes = Items::new(alloc);
    let mut number: u16 = 1;
    let mut left = facts;
    for source in sources {
        match left {
            [] => return Ok(Made { methods, nodes }),
            [fact, rest @ ..] => {
                if number == u16::MAX {
                    return Err(AllocError);
                }
                let m = *source;
                let one = lower_method(alloc, checked, number, m, fact, nodes)?;
                methods.push(one.method)?;
                nodes = one.nodes;
                number += 1;
                left = rest;
            }
        }
    }
    Ok(Made { methods, nodes })
}

fn field_node(checked: &Checked, f: &FieldDecl) -> Node
    ensures { result ≡ programs.field_node checked.now f.now }
{
    Node {
        kind: NodeKind::Field,
        line: line_at(checked.program.tokens.as_slice(), f.name.token),
        method: None,
        counter: None,
    }
}

fn add_field(
    alloc: Global,
    checked: &Checked,
    fields: &mut Items<Field>,
    nodes: &mut Items<Node>,
    f: &FieldDecl,
    ty: Static,
) -> Result<(), AllocError>
    ensures fields { OnOk result (fields.new ≡ fields.old ++ programs.field_of f.now ty (length nodes.old) ∷ []) }
    ensures nodes { OnOk result (nodes.new ≡ nodes.old ++ programs.field_node checked.now f.now ∷ []) }
{
    let name = Vec::from_slice(alloc, f.name.bytes.as_slice())?;
    let ty = code_type(ty)?;
    let node = next_node(nodes)?;
    fields.push(Field {
        name: Text::from_vec(name),
        ty,
        node,
    })?;
    nodes.push(field_node(checked, f))
}

// The fields, and their nodes behind the others.
fn lower_fields(
    alloc: Global,
    checked: &Checked,
    nodes: &mut Items<Node>,
    members: &[Member],
    types: &[Static],
) -> Result<Items<Field>, AllocError>
    ensures fields { IfOk result (λ fields. fields ≡ (programs.lowered_fields checked.now members.now types.now nodes.old).fields) }
    ensures nodes { OnOk result (nodes.new ≡ (programs.lowered_fields checked.now members.now types.now nodes.old).nodes) }
{
    let mut fields = Items::new(alloc);
    let mut left = types;
    for member in members {
        match member {
            Member::Method(_) => {}
            Member::Field(f) => match left {
                [] => return Ok(fields),
                [ty, rest @ ..] => {
                    add_field(alloc, checked, &mut fields, nodes, f, *ty)?;
                    left = rest;
                }
            },
        }
    }
    Ok(fields)
}

fn lower_class(
    alloc: Global,
    checked: &Checked,
    nodes: &mut Items<Node>,
    class: &px_tree::Class,
    fact: &ClassFact,
) -> Result<Class, AllocError>
    ensures class { IfOk result (λ c. c ≡ programs.class_of class.now (programs.lowered_fields checked.now class.now.members fact.now.fields nodes.old)) }
    ensures nodes { OnOk result (nodes.new ≡ (programs.lowered_fields checked.now class.now.members fact.now.fields nodes.old).nodes) }
{
    let name = Vec::from_slice(alloc, class.name.bytes.as_slice())?;
    let members = class.members.as_slice();
    let fields = lower_fields(alloc, checked, nodes, members, fact.fields.as_slice())?;
    Ok(Class {
        name: Text::from_vec(name),
        fields,
    })
}

fn lower_classes(
    alloc: Global,
    checked: &Checked,
    nodes: &mut Items<Node>,
    sources: &[px_tree::Class],
    facts: &[ClassFact],
) -> Result<Items<Class>, AllocError>
    ensures classes { IfOk result (λ classes. classes ≡ (programs.lowered_classes checked.now sources.now facts.now nodes.old).classes) }
    ensures nodes { OnOk result (nodes.new ≡ (programs.lowered_classes checked.now sources.now facts.now nodes.old).nodes) }
{
    let mut classes = Items::new(alloc);
    let mut left = facts;
    for source in sources {
        match left {
            [] => return Ok(classes),
            [fact, rest @ ..] => {
                let class = lower_class(alloc, checked, nodes, source, fact)?;
                classes.push(class)?;
                left = rest;
            }
        }
    }
    Ok(classes)
}

// What the methods allocate, in the order of the text.
fn find_allocations(
    alloc: Global,
    checked: &Checked,
    sources: &[&px_tree::Method],
) -> Result<Items<Allocation>, AllocError>
    ensures { IfOk result (λ found. found ≡ programs.allocations checked.now.facts 1 (all_now sources.now)) }
{
    let mut found = Items::new(alloc);
    let mut number: u16 = 1;
    for source in sources {
        if number == u16::MAX {
            return Err(AllocError);
        }
        let m = *source;
        in_statement(&mut found, checked, number, &m.body)?;
        number += 1;
    }
    Ok(found)
}

fn site_node(checked: &Checked, a: Allocation) -> Node
    ensures { result ≡ programs.site_node checked.now a }
{
    Node {
        kind: NodeKind::Site,
        line: line_at(checked.program.tokens.as_slice(), a.token),
        method: Some(a.method),
        counter: None,
    }
}

// The site of what has elements, and its node.
fn add_elements(
    checked: &Checked,
    sites: &mut Items<Site>,
    nodes: &mut Items<Node>,
    a: Allocation,
    kind: Kind,
) -> Result<(), AllocError>
    ensures sites { OnOk result (sites.new ≡ (programs.element_site checked.now a kind nodes.old sites.old).sites) }
    ensures nodes { OnOk result (nodes.new ≡ (programs.element_site checked.now a kind nodes.old sites.old).nodes) }
{
    let node = next_node(nodes)?;
    nodes.push(site_node(checked, a))?;
    sites.push(Site {
        kind,
        node: Some(node),
    })
}

fn add_site(
    checked: &Checked,
    sites: &mut Items<Site>,
    nodes: &mut Items<Node>,
    a: Allocation,
) -> Result<(), AllocError>
    ensures sites { OnOk result (sites.new ≡ (programs.with_site checked.now a a.kind nodes.old sites.old).sites) }
    ensures nodes { OnOk result (nodes.new ≡ (programs.with_site checked.now a a.kind nodes.old sites.old).nodes) }
{
    match a.kind {
        Kind::Object(class) => sites.push(Site {
            kind: Kind::Object(class),
            node: None,
        }),
        Kind::Array(element) => add_elements(checked, sites, nodes, a, Kind::Array(element)),
        Kind::Rows(number) => add_elements(checked, sites, nodes, a, Kind::Rows(number)),
    }
}

// The sites, and their nodes behind the others.
fn lower_sites(
    alloc: Global,
    checked: &Checked,
    nodes: &mut Items<Node>,
    found: &[Allocation],
) -> Result<Items<Site>, AllocError>
    ensures sites { IfOk result (λ sites. sites ≡ (programs.lowered_sites checked.now found.now nodes.old []).sites) }
    ensures nodes { OnOk result (nodes.new ≡ (programs.lowered_sites checked.now found.now nodes.old []).nodes) }
{
    let mut sites = Items::new(alloc);
    for allocation in found {
        add_site(checked, &mut sites, nodes, *allocation)?;
    }
    Ok(sites)
}

/// The code of a program.
#[tactic(auto, unfolding(crate::specs::Programs::lowered))]
pub fn lower(alloc: Global, checked: &Checked) -> Result<Code, AllocError>
    ensures { IfOk result (λ code. code ≡ programs.lowered checked.now) }
{
    let sources = methods_of(alloc, checked.program.classes.as_slice())?;
    let facts = &checked.facts;
    let made = lower_methods(alloc, checked, sources.as_slice(), facts.methods.as_slice())?;
    let Made { methods, mut nodes } = made;
    let classes = checked.program.classes.as_slice();
    let classes = lower_classes(
        alloc,
        checked,
        &mut nodes,
        classes,
        facts.classes.as_slice(),
    )?;
    let found = find_allocations(alloc, checked, sources.as_slice())?;
    let sites = lower_sites(alloc, checked, &mut nodes, found.as_slice())?;
    let schema = copy_schema(alloc, &checked.schema)?;
    let statements = statements(alloc, facts.operations.as_slice())?;
    Ok(Code {
        main: facts.main.class,
        classes,
        methods,
        sites,
        nodes,
        schema,
        statements,
    })
}
