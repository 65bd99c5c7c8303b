//! The class Main and its entries, as jobs see them.
ghost use Rattle.std.specs.Prelude.{◌≡◌, ◌++◌, map, IfOk, OnOk};
ghost use Rattle.px_types.specs.Entries as specs;

use crate::members::{result_type, type_of};
use crate::numbers::{narrow, sum};
use crate::table::Table;
use px_facts::{Entry, Main, Ty};
use px_tree::{Access, Class, Member, Method, Param};
use px_value::Text;
use sqlite_items::{Items, at};
use std::alloc::{AllocError, Global};

/// The first class with the name Main. `firsts` are the numbers of the classes' first methods.
pub fn find_main(
    alloc: Global,
    numbers: &Table<usize>,
    firsts: &[u16],
    classes: &[Class],
) -> Result<Main, AllocError>
    ensures { IfOk result (λ main. main ≡ specs.main_from numbers.now firsts.now 0 classes.now) }
{
    let mut number: usize = 0;
    for class in classes {
        if class.name.bytes.as_slice() == "Main".as_bytes() {
            let first = first_method(firsts, number);
            return Ok(Main {
                class: narrow(number)?,
                entries: find_entries(alloc, numbers, first, class.members.as_slice())?,
            });
        }
        number += 1;
    }
    Ok(Main {
        class: 0,
        entries: Items::new(alloc),
    })
}

fn first_method(firsts: &[u16], class: usize) -> u16
    ensures { result ≡ specs.first_method firsts.now class }
{
    match at(firsts, class) {
        Some(first) => *first,
        None => 1,
    }
}

// The public methods.
fn find_entries(
    alloc: Global,
    numbers: &Table<usize>,
    first: u16,
    members: &[Member],
) -> Result<Items<Entry>, AllocError>
    ensures { IfOk result (λ entries. entries ≡ specs.entries_from numbers.now first members.now) }
{
    let mut entries = Items::new(alloc);
    let mut number = first;
    for member in members {
        match member {
            Member::Field(_) => {}
            Member::Method(m) => {
                add_entry(alloc, &mut entries, numbers, number, m)?;
                number = sum(number, 1)?;
            }
        }
    }
    Ok(entries)
}

fn add_entry(
    alloc: Global,
    entries: &mut Items<Entry>,
    numbers: &Table<usize>,
    number: u16,
    m: &Method,
) -> Result<(), AllocError>
    ensures { OnOk result (entries.new ≡ entries.old ++ specs.entry_if m.now.access (specs.entry_of numbers.now number m.now)) }
{
    match m.access {
        Access::Public => entries.push(entry_of(alloc, numbers, number, m)?),
        Access::Private | Access::Plain => Ok(()),
    }
}

fn entry_of(
    alloc: Global,
    numbers: &Table<usize>,
    number: u16,
    m: &Method,
) -> Result<Entry, AllocError>
    ensures { IfOk result (λ entry. entry ≡ specs.entry_of numbers.now number m.now) }
{
    let name = Vec::from_slice(alloc, m.name.bytes.as_slice())?;
    Ok(Entry {
        name: Text::from_vec(name),
        method: number,
        params: param_values(alloc, numbers, m.params.as_slice())?,
        gives: gives_type(result_type(numbers, &m.gives)),
    })
}

fn param_values(
    alloc: Global,
    numbers: &Table<usize>,
    params: &[Param],
) -> Result<Items<px_value::Ty>, AllocError>
    ensures { IfOk result (λ types. types ≡ map (specs.param_value numbers.now) params.now) }
{
    let mut types = Items::new(alloc);
    for param in params {
        types.push(value_type(type_of(numbers, &param.ty)))?;
    }
    Ok(types)
}

fn value_type(ty: Ty) -> px_value::Ty
    ensures { result ≡ specs.value_type ty }
{
    match ty {
        Ty::Int => px_value::Ty::Int,
        Ty::Long => px_value::Ty::Long,
        Ty::Boolean => px_value::Ty::Bool,
        Ty::Text => px_value::Ty::Text,
        _ => px_value::Ty::Ref,
    }
}

fn gives_type(ty: Ty) -> Option<px_value::Ty>
    ensures { result ≡ specs.gives_type ty }
{
    match ty {
        Ty::Void => None,
        _ => Some(value_type(ty)),
    }
}
