//! What is known of statements and expressions, and types as code has them.
ghost use Rattle.std.specs.Prelude.{◌≡◌, IfOk};
ghost use Rattle.px_mean.specs.Facts as mean;
ghost use Rattle.px_lowering.specs.Types.{code_type, code_result};

use px_facts::{Element, Facts, Named, Ty as Static};
use px_normal::Ty;
use sqlite_items::at;
use std::alloc::AllocError;

/// The static type of an expression, or of the local that a statement writes.
pub fn type_at(facts: &Facts, id: u32) -> Static
    ensures { result ≡ mean.type_at facts.now id }
{
    match at(facts.nodes.as_slice(), id as usize) {
        Some(fact) => fact.ty,
        None => Static::Unknown,
    }
}

/// What an expression names or makes, or the local that a statement writes.
pub fn named_at(facts: &Facts, id: u32) -> Named
    ensures { result ≡ mean.named_at facts.now id }
{
    match at(facts.nodes.as_slice(), id as usize) {
        Some(fact) => fact.named,
        None => Named::Nothing,
    }
}

fn operands_in(facts: &Facts, number: u16) -> &[Static]
    ensures { result.now ≡ mean.operands_in (mean.by_number facts.now.operations number) }
{
    if number == 0 {
        return &[];
    }
    match at(facts.operations.as_slice(), usize::from(number) - 1) {
        Some(operation) => operation.params.as_slice(),
        None => &[],
    }
}

fn params_in(facts: &Facts, method: u16) -> &[Static]
    ensures { result.now ≡ mean.params_in (mean.by_number facts.now.methods method) }
{
    if method == 0 {
        return &[];
    }
    match at(facts.methods.as_slice(), usize::from(method) - 1) {
        Some(method) => method.params.as_slice(),
        None => &[],
    }
}

/// The types that arguments are wanted to have.
pub fn params_of(facts: &Facts, named: Named) -> &[Static]
    ensures { result.now ≡ mean.params_of facts.now named }
{
    match named {
        Named::Method(method) => params_in(facts, method),
        Named::Query { number, site: _ } | Named::Update { number } => operands_in(facts, number),
        _ => &[],
    }
}

/// The number of a type of elements.
pub fn element_number(element: Element) -> Result<u16, AllocError>
    ensures { IfOk result (λ n. n ≡ mean.element_number element) }
{
    match element {
        Element::Int => Ok(0),
        Element::Long => Ok(1),
        Element::Boolean => Ok(2),
        Element::Text => Ok(3),
        Element::Object(class) => {
            if class > u16::MAX as usize - 4 {
                return Err(AllocError);
            }
            Ok(class as u16 + 4)
        }
    }
}

fn class_number(class: usize) -> Result<u16, AllocError>
    ensures { IfOk result (λ n. n ≡ class) }
{
    if class > u16::MAX as usize {
        return Err(AllocError);
    }
    Ok(class as u16)
}

/// A type as code has it.
pub fn code_type(ty: Static) -> Result<Ty, AllocError>
    ensures { IfOk result (λ t. t ≡ code_type ty) }
{
    match ty {
        Static::Int => Ok(Ty::Int),
        Static::Long => Ok(Ty::Long),
        Static::Boolean => Ok(Ty::Bool),
        Static::Object(class) => Ok(Ty::Object(class_number(class)?)),
        Static::Array(element) => Ok(Ty::Array(element_number(element)?)),
        Static::ResultSet => Ok(Ty::Rows),
        // no statement gives a value of the others but of a text
        Static::Text | Static::Null | Static::Void | Static::Unknown => Ok(Ty::Text),
    }
}

/// The type of a method's result; none for `void`.
pub fn code_result(ty: Static) -> Result<Option<Ty>, AllocError>
    ensures { IfOk result (λ t. t ≡ code_result ty) }
{
    if ty.is_void() {
        return Ok(None);
    }
    let ty = code_type(ty)?;
    Ok(Some(ty))
}
