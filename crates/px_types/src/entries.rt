//! The rules of the class Main and of its entries.
ghost use Rattle.std.specs.Prelude.{◌≡◌};
ghost use Rattle.std.specs.List.{list_all};
ghost use Rattle.px_type_rules.specs.Breaches.{after};
ghost use Rattle.px_types.specs.Methods as methods;
ghost use Rattle.px_types.specs.Programs as programs;

use crate::members::{result_type, type_of};
use crate::table::Table;
use px_facts::Ty;
use px_tree::{Access, Class, Member, Method, Param};
use px_type_rules::Report;

/// There is a class Main, and its entries have types that a job has values of. `end` is the last token.
#[tactic(auto, using(crate::proofs::Notes::after_append))]
pub fn check_main(report: &mut Report, numbers: &Table<usize>, end: u32, classes: &[Class])
    ensures { report.new ≡ after report.old (programs.main_notes numbers.now end classes.now) }
{
    for class in classes {
        if class.name.bytes.as_slice() == "Main".as_bytes() {
            check_entries(report, numbers, class.members.as_slice());
            return;
        }
    }
    report.breach(end, 14);
}

#[tactic(auto, using(crate::proofs::Notes::after_append))]
fn check_entries(report: &mut Report, numbers: &Table<usize>, members: &[Member])
    ensures { report.new ≡ after report.old (programs.entries numbers.now members.now) }
{
    for member in members {
        match member {
            Member::Field(_) => {}
            Member::Method(m) => check_entry(report, numbers, m),
        }
    }
}

fn check_entry(report: &mut Report, numbers: &Table<usize>, m: &Method)
    ensures { report.new ≡ after report.old (methods.entry_notes numbers.now m.now) }
{
    let fitting = are_fit(numbers, m.params.as_slice()) && is_fit(result_type(numbers, &m.gives));
    report.breach_if(is_public(m.access) && !fitting, m.name.token, 14);
}

fn are_fit(numbers: &Table<usize>, params: &[Param]) -> bool
    ensures { result ≡ list_all (methods.is_entry_param numbers.now) params.now }
{
    params
        .iter()
        .all(|param| type_of(numbers, &param.ty).is_printable())
}

fn is_fit(gives: Ty) -> bool
    ensures { result ≡ methods.is_entry_result gives }
{
    gives.is_void() || gives.is_printable()
}

fn is_public(access: Access) -> bool
    ensures { result ≡ methods.is_public access }
{
    matches!(access, Access::Public)
}
