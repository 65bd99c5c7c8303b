//! The rules of a program.
ghost use Rattle.std.specs.Prelude.{◌≡◌, IfOk, OnOk};
ghost use Rattle.px_type_rules.specs.Breaches.{after};
ghost use Rattle.px_types.specs.Programs as programs;
ghost use Rattle.px_types.specs.Programs.{first_breach_of};

use crate::context::Context;
use crate::declare::declare_classes;
use crate::entries::check_main;
use px_facts::Ty;
use px_lex::Token;
use px_tree::{Class, Member, Program};
use px_type_rules::{Breach, Report};
use px_value::Schema;
use std::alloc::{AllocError, Global};

// The greatest number of a token.
const MAX_TOKEN: usize = 4294967295;

/// The breach of a type rule at the first token, and there the one with the smallest code. The schema is that of the
/// program's tables.
#[tactic(auto, using(crate::proofs::Firsts::first_of_notes))]
pub fn first_breach(
    alloc: Global,
    program: &Program,
    schema: &Schema,
) -> Result<Option<Breach>, AllocError>
    ensures { IfOk result (λ first. first ≡ first_breach_of schema.now program.now) }
{
    let report = judge(alloc, program, schema)?;
    Ok(report.first)
}

#[tactic(auto, using(crate::proofs::Notes::after_append))]
fn judge(alloc: Global, program: &Program, schema: &Schema) -> Result<Report, AllocError>
    ensures { IfOk result (λ report. report ≡ after programs.no_report (programs.notes_of schema.now program.now)) }
{
    let mut report = Report::new();
    let classes = declare_classes(alloc, &mut report, schema, program.classes.as_slice())?;
    let end = end_token(program.tokens.as_slice());
    check_main(
        &mut report,
        &classes.numbers,
        end,
        program.classes.as_slice(),
    );
    let mut context = Context {
        classes,
        this: 0,
        result: Ty::Void,
    };
    context.bodies(alloc, &mut report, program.classes.as_slice())?;
    Ok(report)
}

// The number of the last token.
fn end_token(tokens: &[Token]) -> u32
    ensures { result ≡ programs.end_token tokens.now }
{
    let last = tokens.len().saturating_sub(1);
    if last < MAX_TOKEN {
        last as u32
    } else {
        u32::MAX
    }
}

impl Context {
    // The methods of all classes, from the first class on.
    #[tactic(auto, using(crate::proofs::Notes::after_append))]
    fn bodies(
        &mut self,
        alloc: Global,
        report: &mut Report,
        classes: &[Class],
    ) -> Result<(), AllocError>
        requires { self.old.this ≡ 0 }
        ensures { OnOk result (report.new ≡ after report.old (programs.bodies self.old.classes 0 classes.now)) }
    {
        for class in classes {
            self.body(alloc, report, class.members.as_slice())?;
            self.this += 1;
        }
        Ok(())
    }

    // The methods of this class.
    #[tactic(auto, using(crate::proofs::Notes::after_append))]
    fn body(
        &mut self,
        alloc: Global,
        report: &mut Report,
        members: &[Member],
    ) -> Result<(), AllocError>
        ensures classes { self.new.classes ≡ self.old.classes }
        ensures this { self.new.this ≡ self.old.this }
        ensures notes { OnOk result (report.new ≡ after report.old (programs.class_bodies self.old.classes self.old.this members.now)) }
    {
        for member in members {
            match member {
                Member::Field(_) => {}
                Member::Method(m) => self.method(alloc, report, m)?,
            }
        }
        Ok(())
    }
}
