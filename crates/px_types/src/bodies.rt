//! What is known of methods, and of what is in them.
ghost use Rattle.std.specs.Prelude.{◌≡◌, ◌∷◌, [], ◌++◌, IfOk, OnOk};
ghost use Rattle.px_types.specs.Bodies as bodies;
ghost use Rattle.px_types.specs.Slots.{first_scope};

use crate::declare::param_types;
use crate::home::Home;
use crate::members::{result_type, type_of};
use crate::node::Node;
use crate::numbers::narrow;
use crate::scope::Scope;
use px_facts::{Fact, MethodFact, Operation};
use px_tree::{Class, Member, Method, Param};
use sqlite_items::Items;
use std::alloc::{AllocError, Global};

/// What is known of statements and expressions, and of methods.
#[derive(Drop)]
pub struct Known {
    pub nodes: Items<Node>,
    pub methods: Items<MethodFact>,
}

/// The same with the numbers of sites and of calls of `Db`, and what these ask for.
#[derive(Drop)]
pub struct Numbered {
    pub nodes: Items<Fact>,
    pub methods: Items<MethodFact>,
    pub operations: Items<Operation>,
}

impl Home {
    /// Adds what is known of the methods of all classes, from the first class on.
    pub fn all_bodies(
        &mut self,
        alloc: Global,
        known: &mut Known,
        classes: &[Class],
    ) -> Result<(), AllocError>
        requires { self.old.this ≡ 0 }
        ensures nodes { OnOk result (known.new.nodes ≡ known.old.nodes ++ (bodies.all_found self.old classes.now).nodes) }
        ensures methods { OnOk result (known.new.methods ≡ known.old.methods ++ (bodies.all_found self.old classes.now).methods) }
    {
        for class in classes {
            self.class_bodies(alloc, known, class.members.as_slice())?;
            self.this += 1;
        }
        Ok(())
    }

    fn class_bodies(
        &self,
        alloc: Global,
        known: &mut Known,
        members: &[Member],
    ) -> Result<(), AllocError>
        ensures nodes { OnOk result (known.new.nodes ≡ known.old.nodes ++ (bodies.class_found self.now members.now).nodes) }
        ensures methods { OnOk result (known.new.methods ≡ known.old.methods ++ (bodies.class_found self.now members.now).methods) }
    {
        for member in members {
            match member {
                Member::Field(_) => {}
                Member::Method(m) => self.body(alloc, known, m)?,
            }
        }
        Ok(())
    }

    fn body(&self, alloc: Global, known: &mut Known, m: &Method) -> Result<(), AllocError>
        ensures nodes { OnOk result (known.new.nodes ≡ known.old.nodes ++ (bodies.told_body self.now m.now).nodes) }
        ensures methods { OnOk result (known.new.methods ≡ known.old.methods ++ bodies.method_known self.now m.now ∷ []) }
    {
        let mut scope = self.params(alloc, m.params.as_slice())?;
        self.statement(alloc, &mut scope, &mut known.nodes, &m.body)?;
        let Scope { locals: _, slots } = scope;
        let fact = MethodFact {
            class: narrow(self.this)?,
            params: param_types(alloc, &self.classes.numbers, m.params.as_slice())?,
            result: result_type(&self.classes.numbers, &m.gives),
            slots,
        };
        known.methods.push(fact)
    }

    // The scope of a method's body.
    fn params(&self, alloc: Global, params: &[Param]) -> Result<Scope, AllocError>
        ensures { IfOk result (λ scope. scope ≡ bodies.with_params self.now.classes.numbers (first_scope self.now.this) params.now) }
    {
        let mut scope = Scope::new(alloc, self.this)?;
        for param in params {
            let ty = type_of(&self.classes.numbers, &param.ty);
            scope.declare(alloc, param.name.bytes.as_slice(), ty)?;
        }
        Ok(scope)
    }
}
