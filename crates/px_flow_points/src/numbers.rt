//! The numbers of the slots and parts of code.
ghost use Rattle.std.specs.Prelude.{◌≡◌, ◌<◌, ◌^◌, ◌+◌, ◌++◌, ◌∷◌, [], length, IfOk, OnOk};
ghost use Rattle.px_normal.specs.First.{fields_of};
ghost use Rattle.px_flow_points.specs.Numbers.{capped, number, slot_var, result_var, firsts, behind, cells_from, method_size, method_sizes, kind_size, site_size, site_sizes, all_site_sizes};

use px_constraints::Cells;
use px_normal::{Code, Method, Site};
use px_value::Kind;
use std::alloc::{AllocError, Global};
use std::marker::Model;

/// By method the number of its first variable.
#[derive(Drop)]
pub struct Numbers {
    bases: Vec<u32>,
}

impl Model for Numbers {
    ghost use Rattle.std.specs.Prelude.{List, ℕ};

    ghost Value = { List ℕ };

    ghost view = { λ numbers. numbers.bases.items };
}

fn add_capped(a: u32, b: usize) -> u32
    ensures { result ≡ capped (a + b) }
{
    match u32::try_from(b) {
        Ok(b) => match a.checked_add(b) {
            Some(sum) => sum,
            None => u32::MAX,
        },
        Err(_) => u32::MAX,
    }
}

// The number behind a group; more than 2^32 variables have no room.
fn past(first: u32, count: usize) -> Result<u32, AllocError>
    ensures next { IfOk result (λ next. next ≡ first + count) }
    ensures fits { IfOk result (λ next. next < 2 ^ 32) }
{
    match u32::try_from(count) {
        Ok(count) => match first.checked_add(count) {
            Some(next) => Ok(next),
            None => Err(AllocError),
        },
        Err(_) => Err(AllocError),
    }
}

// The number behind the group of a method with so many slots.
fn past_method(first: u32, slots: usize) -> Result<u32, AllocError>
    ensures { IfOk result (λ next. next ≡ first + (1 + slots)) }
{
    let next = past(first, slots)?;
    past(next, 1)
}

impl Numbers {
    fn number(&self, group: usize, at: usize) -> u32
        ensures { result ≡ number self.now group at }
    {
        match self.bases.get(group) {
            Some(base) => add_capped(*base, at),
            None => add_capped(0, at),
        }
    }

    /// What a method returns is the first of its group.
    pub fn result(&self, method: u16) -> u32
        ensures { result ≡ result_var self.now method }
    {
        self.number(usize::from(method.saturating_sub(1)), 0)
    }

    pub fn slot(&self, method: u16, slot: usize) -> u32
        ensures { result ≡ slot_var self.now method slot }
    {
        add_capped(self.number(usize::from(method.saturating_sub(1)), 1), slot)
    }
}

/// Numbers of something, and the first number behind them.
#[derive(Drop)]
pub struct Numbered<T: Drop> {
    pub of: T,
    pub behind: u32,
}

pub fn number_methods(alloc: Global, methods: &[Method]) -> Result<Numbered<Numbers>, AllocError>
    ensures of { IfOk result (λ numbered. numbered.of ≡ firsts 0 (method_sizes methods.now)) }
    ensures behind { IfOk result (λ numbered. numbered.behind ≡ behind 0 (method_sizes methods.now)) }
{
    let mut bases = Vec::new(alloc);
    let mut next: u32 = 0;
    for method in methods {
        bases.push(next)?;
        next = past_method(next, method.slots.len())?;
    }
    Ok(Numbered {
        of: Numbers { bases },
        behind: next,
    })
}

fn fields(code: &Code, class: u16) -> usize
    ensures { result ≡ length (fields_of code.now class) }
{
    match sqlite_items::at(code.classes.as_slice(), usize::from(class)) {
        Some(class) => class.fields.len(),
        None => 0,
    }
}

fn parts(code: &Code, kind: Kind) -> usize
    ensures { result ≡ kind_size code.now kind }
{
    match kind {
        Kind::Object(class) => fields(code, class),
        _ => 1,
    }
}

// Numbers the parts of the next site.
fn number_site(count: usize, cells: &mut Vec<Cells>, next: u32) -> Result<u32, AllocError>
    ensures behind { IfOk result (λ behind. behind ≡ next + count) }
    ensures fits { IfOk result (λ behind. behind < 2 ^ 32) }
    ensures cells { OnOk result (cells.new.items ≡ cells.old.items ++ record { first = next; count = count } ∷ []) }
{
    let behind = past(next, count)?;
    cells.push(Cells {
        first: next,
        count: behind - next,
    })?;
    Ok(behind)
}

pub fn number_sites(
    alloc: Global,
    code: &Code,
    first: u32,
) -> Result<Numbered<Vec<Cells>>, AllocError>
    ensures of { IfOk result (λ numbered. numbered.of.items ≡ cells_from first (all_site_sizes code.now)) }
    ensures behind { IfOk result (λ numbered. numbered.behind ≡ behind first (all_site_sizes code.now)) }
    ensures fits { IfOk result (λ numbered. numbered.behind < 2 ^ 32) }
{
    let mut cells = Vec::new(alloc);
    let mut next = number_site(fields(code, code.main), &mut cells, first)?;
    for site in code.sites.as_slice() {
        next = number_site(parts(code, site.kind), &mut cells, next)?;
    }
    Ok(Numbered {
        of: cells,
        behind: next,
    })
}
