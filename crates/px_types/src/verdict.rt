//! Whether a program keeps the type rules, and what is then known of it.
ghost use Rattle.std.specs.Prelude.{◌≡◌, ℕ, Some, None, map, slice_get, IfOk, OnOk, IsErrOf};
ghost use Rattle.px_types.specs.declared.error.CheckError.TheVariants.{TypeFault};
ghost use Rattle.px_types.specs.Bodies as bodies;
ghost use Rattle.px_types.specs.Checked as specs;

use crate::bodies::{Known, Numbered};
use crate::classes::{FieldType, Members};
use crate::declare::declare_classes;
use crate::error::CheckError;
use crate::home::Home;
use crate::main_class::find_main;
use crate::numbers::sum;
use crate::program::first_breach;
use crate::sites::{operations_in, with_sites};
use px_facts::{Checked, ClassFact, Facts, Main, Ty};
use px_lex::Token;
use px_tree::{Class, Program};
use px_type_rules::Report;
use px_value::Schema;
use sqlite_items::{Items, at};
use std::alloc::{AllocError, Global};

/// Judges a program by the type rules. The schema is that of its tables.
pub fn check(alloc: Global, program: Program, schema: Schema) -> Result<Checked, CheckError>
    ensures kept { OnOk result (specs.fault_of program schema ≡ None) }
    ensures checked { IfOk result (λ checked. checked ≡ specs.checked_of program schema) }
    ensures fault { (line code : ℕ) → IsErrOf result (TypeFault line code) → specs.fault_of program schema ≡ Some (TypeFault line code) }
{
    if let Some(breach) = first_breach(alloc, &program, &schema)? {
        return Err(CheckError::TypeFault {
            line: line_at(program.tokens.as_slice(), breach.token),
            code: breach.code,
        });
    }
    let facts = find_facts(alloc, &program, &schema)?;
    Ok(Checked {
        program,
        schema,
        facts,
    })
}

// The line of a token.
fn line_at(tokens: &[Token], token: u32) -> u32
    ensures { result ≡ specs.line_in (slice_get tokens.now token) }
{
    match at(tokens, token as usize) {
        Some(token) => token.line,
        None => 0,
    }
}

#[tactic(auto, unfolding(crate::specs::Checked::facts_of))]
fn find_facts(alloc: Global, program: &Program, schema: &Schema) -> Result<Facts, AllocError>
    ensures { IfOk result (λ facts. facts ≡ specs.facts_of schema.now program.now) }
{
    let classes = program.classes.as_slice();
    let mut home = find_home(alloc, schema, classes)?;
    facts_in(alloc, &mut home, classes)
}

// What is known of these classes, from the first on.
fn facts_in(alloc: Global, home: &mut Home, classes: &[Class]) -> Result<Facts, AllocError>
    requires { home.old.this ≡ 0 }
    ensures { IfOk result (λ facts. facts ≡ specs.facts_in home.old classes.now) }
{
    let main = find_main(
        alloc,
        &home.classes.numbers,
        home.firsts.as_slice(),
        classes,
    )?;
    let class_facts = class_facts(alloc, home.classes.members.as_slice())?;
    let known = find_known(alloc, home, classes)?;
    Ok(with_known(known, class_facts, main))
}

fn with_known(known: Numbered, classes: Items<ClassFact>, main: Main) -> Facts
    ensures { result ≡ specs.with_known known classes main }
{
    let Numbered {
        nodes,
        methods,
        operations,
    } = known;
    Facts {
        nodes,
        classes,
        methods,
        operations,
        main,
    }
}

// What is in the methods of all classes, from the first on.
fn find_known(alloc: Global, home: &mut Home, classes: &[Class]) -> Result<Numbered, AllocError>
    requires { home.old.this ≡ 0 }
    ensures { IfOk result (λ known. known ≡ specs.known_in home.old classes.now) }
{
    let mut known = Known {
        nodes: Items::new(alloc),
        methods: Items::new(alloc),
    };
    home.all_bodies(alloc, &mut known, classes)?;
    numbered(alloc, known)
}

// With the numbers of sites and of calls of `Db`.
fn numbered(alloc: Global, known: Known) -> Result<Numbered, AllocError>
    ensures { IfOk result (λ all. all ≡ specs.numbered known) }
{
    let Known { nodes, methods } = known;
    let operations = operations_in(alloc, nodes.as_slice())?;
    let nodes = with_sites(alloc, nodes.as_slice())?;
    Ok(Numbered {
        nodes,
        methods,
        operations,
    })
}

// The classes, and the first of them.
fn find_home(alloc: Global, schema: &Schema, classes: &[Class]) -> Result<Home, AllocError>
    ensures { IfOk result (λ home. home ≡ bodies.home_of schema.now classes.now) }
{
    let mut report = Report::new();
    let classes = declare_classes(alloc, &mut report, schema, classes)?;
    let firsts = firsts(alloc, classes.members.as_slice())?;
    Ok(Home {
        classes,
        firsts,
        this: 0,
    })
}

// The number of each class's first method.
fn firsts(alloc: Global, members: &[Members]) -> Result<Items<u16>, AllocError>
    ensures { IfOk result (λ firsts. firsts ≡ bodies.firsts_from 1 members.now) }
{
    let mut firsts = Items::new(alloc);
    let mut first: u16 = 1;
    for class in members {
        firsts.push(first)?;
        first = sum(first, class.methods.names.len())?;
    }
    Ok(firsts)
}

fn class_facts(alloc: Global, members: &[Members]) -> Result<Items<ClassFact>, AllocError>
    ensures { IfOk result (λ facts. facts ≡ map specs.class_known members.now) }
{
    let mut facts = Items::new(alloc);
    for class in members {
        let fields = field_types(alloc, class.fields.values.as_slice())?;
        facts.push(ClassFact { fields })?;
    }
    Ok(facts)
}

fn field_types(alloc: Global, fields: &[FieldType]) -> Result<Items<Ty>, AllocError>
    ensures { IfOk result (λ types. types ≡ map specs.type_in fields.now) }
{
    let mut types = Items::new(alloc);
    for field in fields {
        types.push(field.ty)?;
    }
    Ok(types)
}
