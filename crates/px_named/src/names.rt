//! What numbers are called.
ghost use Rattle.std.specs.Prelude.{◌≡◌, [], IfOk};
ghost use Rattle.px_named.specs.Named as specs;

use px_normal::{Code, Method};
use px_pyxil::{Element, Member};
use px_value::Text;
use sqlite_items::at;
use std::alloc::{AllocError, Global};

fn no_name(alloc: Global) -> Text
    ensures { result ≡ [] }
{
    Text::from_vec(Vec::new(alloc))
}

pub fn class_name(alloc: Global, code: &Code, class: u16) -> Result<Text, AllocError>
    ensures { IfOk result (λ name. name ≡ specs.class_name code.now class) }
{
    match at(code.classes.as_slice(), usize::from(class)) {
        Some(class) => class.name.copy(alloc),
        None => Ok(no_name(alloc)),
    }
}

fn field_name(alloc: Global, code: &Code, class: u16, field: u16) -> Result<Text, AllocError>
    ensures { IfOk result (λ name. name ≡ specs.field_name code.now class field) }
{
    match at(code.classes.as_slice(), usize::from(class)) {
        Some(class) => match at(class.fields.as_slice(), usize::from(field)) {
            Some(field) => field.name.copy(alloc),
            None => Ok(no_name(alloc)),
        },
        None => Ok(no_name(alloc)),
    }
}

pub fn field_named(alloc: Global, code: &Code, class: u16, field: u16) -> Result<Member, AllocError>
    ensures { IfOk result (λ member. member ≡ specs.field_named code.now class field) }
{
    let name = field_name(alloc, code, class, field)?;
    Ok(Member {
        class: class_name(alloc, code, class)?,
        name,
    })
}

pub fn member_of(alloc: Global, code: &Code, method: &Method) -> Result<Member, AllocError>
    ensures { IfOk result (λ member. member ≡ specs.member_of code.now method.now) }
{
    let name = method.name.copy(alloc)?;
    Ok(Member {
        class: class_name(alloc, code, method.class)?,
        name,
    })
}

fn no_member(alloc: Global) -> Member
    ensures { result ≡ specs.no_member }
{
    Member {
        class: no_name(alloc),
        name: no_name(alloc),
    }
}

pub fn method_named(alloc: Global, code: &Code, method: u16) -> Result<Member, AllocError>
    ensures { IfOk result (λ member. member ≡ specs.method_named code.now method) }
{
    if method == 0 {
        return Ok(no_member(alloc));
    }
    match at(code.methods.as_slice(), usize::from(method) - 1) {
        Some(method) => member_of(alloc, code, method),
        None => Ok(no_member(alloc)),
    }
}

pub fn element_named(alloc: Global, code: &Code, element: u16) -> Result<Element, AllocError>
    ensures { IfOk result (λ named. named ≡ specs.element_named code.now element) }
{
    match element {
        0 => Ok(Element::Int),
        1 => Ok(Element::Long),
        2 => Ok(Element::Bool),
        3 => Ok(Element::Text),
        _ => Ok(Element::Object(class_name(alloc, code, element - 4)?)),
    }
}
