//! The nodes of methods and fields, by dotted names.

ghost use Rattle.std.specs.Prelude.{◌≡◌, ◌++◌, ◌∷◌, [], IfOk, OnOk, slice_get};
ghost use Rattle.px_job.specs.Selecting.{now_of};
ghost use Rattle.px_job.specs.Titles.{name_of, dotted, titled, method_titles, field_titles, titles_in, nodes_named, title_from, AreTitles};

use crate::groups::Groups;
use crate::places::Places;
use px_normal::{Class, Method};
use px_value::Text;
use sqlite_items::{Items, at};
use std::alloc::{AllocError, Global};

/// A dotted name, and the numbers of the nodes that it stands for.
#[derive(Drop)]
pub(crate) struct Titled {
    name: Text,
    nodes: Items<usize>,
}

/// Dotted names, found by their bytes.
#[derive(Drop)]
pub(crate) struct Titles<'a> {
    pub(crate) list: &'a [Titled],
    places: Places<'a>,
    ghost found: { AreTitles places.map list.now },
}

impl<'a> Titles<'a> {
    pub(crate) fn new(alloc: Global, list: &'a [Titled]) -> Result<Titles<'a>, AllocError>
        ensures { IfOk result (λ titles. titles.list.now ≡ list.now) }
    {
        let places = places_of(alloc, list)?;
        Ok(Titles { list, places })
    }

    /// The nodes of the first of a name.
    pub(crate) fn find(&self, name: &[u8]) -> Option<&[usize]>
        ensures { now_of result ≡ nodes_named name.now self.now.list.now }
    {
        let place = self.places.get(name)?;
        match at(self.list, place) {
            Some(title) => Some(title.nodes.as_slice()),
            None => None,
        }
    }
}

// From the last to the first, so that of each name the first stays.
fn places_of(alloc: Global, titles: &[Titled]) -> Result<Places<'_>, AllocError>
    ensures { IfOk result (λ places. AreTitles places.map titles.now) }
{
    let mut places = Places::new(alloc);
    let mut place = titles.len();
    while place > 0 {
        place -= 1;
        places.put(titles[place].name.as_slice(), place)?;
    }
    Ok(places)
}

/// The methods, each with the nodes that stand in it.
pub(crate) fn titles_of_methods(
    alloc: Global,
    classes: &[Class],
    owners: &Groups,
    methods: &[Method],
) -> Result<Items<Titled>, AllocError>
    ensures { IfOk result (λ titles. titles ≡ method_titles classes.now owners.now 1 methods.now) }
{
    let mut titles = Items::new(alloc);
    let mut number = 0_u64;
    for method in methods {
        number += 1;
        let owner = owner_name(classes, method.class as usize);
        let nodes = Items::from_slice(alloc, owners.at(number))?;
        titles.push(title(alloc, owner, method.name.as_slice(), nodes)?)?;
    }
    Ok(titles)
}

fn owner_name(classes: &[Class], number: usize) -> &[u8]
    ensures { result.now ≡ name_of (slice_get classes.now number) }
{
    match at(classes, number) {
        Some(class) => class.name.as_slice(),
        None => &[],
    }
}

/// The fields, each with its node.
pub(crate) fn titles_of_fields(
    alloc: Global,
    classes: &[Class],
) -> Result<Items<Titled>, AllocError>
    ensures { IfOk result (λ titles. titles ≡ field_titles classes.now) }
{
    let mut titles = Items::new(alloc);
    for class in classes {
        push_fields(alloc, class, &mut titles)?;
    }
    Ok(titles)
}

fn push_fields(alloc: Global, class: &Class, titles: &mut Items<Titled>) -> Result<(), AllocError>
    ensures { OnOk result (titles.new ≡ titles.old ++ titles_in class.now.name class.now.fields) }
{
    let owner = class.name.as_slice();
    for field in class.fields.as_slice() {
        let nodes = Items::from_slice(alloc, &[field.node as usize])?;
        titles.push(title(alloc, owner, field.name.as_slice(), nodes)?)?;
    }
    Ok(())
}

fn title(
    alloc: Global,
    owner: &[u8],
    name: &[u8],
    nodes: Items<usize>,
) -> Result<Titled, AllocError>
    ensures { IfOk result (λ t. t ≡ titled (dotted owner.now name.now) nodes) }
{
    let mut bytes = owner.to_vec(alloc)?;
    bytes.push(b'.')?;
    bytes.extend_from_slice(name)?;
    Ok(Titled {
        name: Text::from_vec(bytes),
        nodes,
    })
}
