//! Classes and methods.
ghost use Rattle.std.specs.Prelude.{◌≡◌, map, IfOk};
ghost use Rattle.px_straight.specs.Simple as specs;

use crate::types::{simple_option, simple_type, simple_types};
use crate::words::simple_word;
use px_code::{
    Class as SimpleClass, Field as SimpleField, Method as SimpleMethod, Tree as SimpleTree,
    Word as SimpleWord,
};
use px_normal::{Class, Field, Method, Tree};
use sqlite_items::Items;
use std::alloc::{AllocError, Global};

fn simple_field(alloc: Global, field: &Field) -> Result<SimpleField, AllocError>
    ensures { IfOk result (λ f. f ≡ specs.simple_field field.now) }
{
    let name = field.name.copy(alloc)?;
    Ok(SimpleField {
        name,
        ty: simple_type(field.ty),
        node: field.node,
    })
}

fn simple_fields(alloc: Global, fields: &[Field]) -> Result<Items<SimpleField>, AllocError>
    ensures { IfOk result (λ all. all ≡ map specs.simple_field fields.now) }
{
    let mut all = Items::new(alloc);
    for field in fields {
        all.push(simple_field(alloc, field)?)?;
    }
    Ok(all)
}

fn simple_class(alloc: Global, class: &Class) -> Result<SimpleClass, AllocError>
    ensures { IfOk result (λ c. c ≡ specs.simple_class class.now) }
{
    let name = class.name.copy(alloc)?;
    let fields = simple_fields(alloc, class.fields.as_slice())?;
    Ok(SimpleClass { name, fields })
}

pub fn simple_classes(alloc: Global, classes: &[Class]) -> Result<Items<SimpleClass>, AllocError>
    ensures { IfOk result (λ all. all ≡ map specs.simple_class classes.now) }
{
    let mut all = Items::new(alloc);
    for class in classes {
        all.push(simple_class(alloc, class)?)?;
    }
    Ok(all)
}

#[tactic(auto, using(crate::proofs::Forms::simple_do, crate::proofs::Forms::simple_if, crate::proofs::Forms::simple_loop))]
fn simple_tree(alloc: Global, tree: &Tree) -> Result<SimpleTree, AllocError>
    ensures { IfOk result (λ t. t ≡ specs.simple_tree tree.now) }
{
    match tree {
        Tree::Do { node, word } => {
            let word = simple_word(alloc, word)?;
            Ok(SimpleTree::Do { node: *node, word })
        }
        Tree::If {
            node,
            test: _,
            yes: _,
            no: _,
        } => Ok(SimpleTree::Do {
            node: *node,
            word: SimpleWord::Return(None),
        }),
        Tree::Loop {
            first: _,
            node,
            test: _,
            body: _,
        } => Ok(SimpleTree::Do {
            node: *node,
            word: SimpleWord::Return(None),
        }),
    }
}

fn simple_trees(alloc: Global, trees: &[Tree]) -> Result<Items<SimpleTree>, AllocError>
    ensures { IfOk result (λ all. all ≡ map specs.simple_tree trees.now) }
{
    let mut all = Items::new(alloc);
    for tree in trees {
        all.push(simple_tree(alloc, tree)?)?;
    }
    Ok(all)
}

fn simple_method(alloc: Global, method: &Method) -> Result<SimpleMethod, AllocError>
    ensures { IfOk result (λ m. m ≡ specs.simple_method method.now) }
{
    let name = method.name.copy(alloc)?;
    let slots = simple_types(alloc, method.slots.as_slice())?;
    let body = simple_trees(alloc, method.body.as_slice())?;
    Ok(SimpleMethod {
        class: method.class,
        name,
        node: method.node,
        entry: method.entry,
        params: method.params,
        gives: simple_option(method.gives),
        slots,
        body,
    })
}

pub fn simple_methods(alloc: Global, methods: &[Method]) -> Result<Items<SimpleMethod>, AllocError>
    ensures { IfOk result (λ all. all ≡ map specs.simple_method methods.now) }
{
    let mut all = Items::new(alloc);
    for method in methods {
        all.push(simple_method(alloc, method)?)?;
    }
    Ok(all)
}
