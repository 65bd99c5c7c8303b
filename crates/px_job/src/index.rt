//! What side lines select, found by names and lines.

ghost use Rattle.std.specs.Prelude.{◌≡◌, IfOk};
ghost use Rattle.std.specs.List.{list_any};
ghost use Rattle.px_job.specs.Prints.{prints_of, is_print};
ghost use Rattle.px_job.specs.Titles.{method_titles, field_titles};
ghost use Rattle.px_job.specs.Words.{words_of};
ghost use Rattle.px_job.specs.Parts.{places_print};
ghost use Rattle.px_job.specs.Selecting.{is_selector, is_all, is_line, is_method, is_field, lines_in, owners_in, all_in, line_nodes, method_nodes, field_nodes, selected, now_of};

use crate::arguments::is_digits;
use crate::groups::{Groups, Key, keys_but_prints, keys_of};
use crate::names::is_dotted;
use crate::prints::Prints;
use crate::titles::{Titled, Titles};
use crate::words::split_word;
use px_code::Side;
use px_normal::Code;
use px_outside::read_u64;
use std::alloc::{AllocError, Global};

/// The nodes of a program, as side lines name them.
#[derive(Drop)]
pub(crate) struct Index<'a> {
    pub(crate) code: &'a Code,
    pub(crate) prints: Prints,
    all: Groups,
    lines: Groups,
    methods: Titles<'a>,
    fields: Titles<'a>,
    ghost printed: { prints ≡ prints_of code.now },
    ghost all_found: { all ≡ all_in code.now },
    ghost lines_found: { lines ≡ lines_in code.now },
    ghost methods_titled: { methods.list.now ≡ method_titles code.now.classes (owners_in code.now) 1 code.now.methods },
    ghost fields_titled: { fields.list.now ≡ field_titles code.now.classes },
}

impl<'a> Index<'a> {
    pub(crate) fn new(
        alloc: Global,
        code: &'a Code,
        prints: Prints,
        methods: &'a [Titled],
        fields: &'a [Titled],
    ) -> Result<Index<'a>, AllocError>
        requires prints { prints ≡ prints_of code.now }
        requires methods { methods.now ≡ method_titles code.now.classes (owners_in code.now) 1 code.now.methods }
        requires fields { fields.now ≡ field_titles code.now.classes }
        ensures { IfOk result (λ index. index.code.now ≡ code.now) }
    {
        let nodes = code.nodes.as_slice();
        let all = Groups::new(alloc, keys_but_prints(alloc, Key::All, &prints, nodes)?)?;
        let lines = Groups::new(alloc, keys_of(alloc, Key::Line, nodes)?)?;
        let methods = Titles::new(alloc, methods)?;
        let fields = Titles::new(alloc, fields)?;
        Ok(Index {
            code,
            prints,
            all,
            lines,
            methods,
            fields,
        })
    }

    /// The numbers of the nodes that the words of a selector select; none where they name what
    /// isn't there.
    pub(crate) fn select(&self, line: &[u8]) -> Option<&[usize]>
        ensures { now_of result ≡ selected self.now.code.now (words_of line.now) }
    {
        let Some((kind, rest)) = split_word(line) else {
            return None;
        };
        let Some((name, _)) = split_word(rest) else {
            return Some(self.all.at(0));
        };
        if is_line(kind) {
            self.select_line(name)
        } else if is_method(kind) {
            self.methods.find(name)
        } else {
            self.fields.find(name)
        }
    }

    fn select_line(&self, name: &[u8]) -> Option<&[usize]>
        ensures { now_of result ≡ line_nodes self.now.code.now name.now }
    {
        let line = read_u64(name)?;
        let numbers = self.lines.at(line);
        if numbers.is_empty() {
            None
        } else {
            Some(numbers)
        }
    }

    /// Whether the side puts a print of these nodes at DB.
    pub(crate) fn places_print(&self, side: Side, numbers: &[usize]) -> bool
        ensures { result ≡ places_print (prints_of self.now.code.now) side numbers.now }
    {
        matches!(side, Side::Db) && self.has_print(numbers)
    }

    fn has_print(&self, numbers: &[usize]) -> bool
        ensures { result ≡ list_any (is_print (prints_of self.now.code.now)) numbers.now }
    {
        for number in numbers {
            if self.prints.has(*number) {
                return true;
            }
        }
        false
    }
}

/// Whether the words of the line are a selector.
pub(crate) fn is_selector(line: &[u8]) -> bool
    ensures { result ≡ is_selector (words_of line.now) }
{
    let Some((kind, rest)) = split_word(line) else {
        return false;
    };
    let Some((name, rest)) = split_word(rest) else {
        return is_all(kind);
    };
    if split_word(rest).is_some() {
        return false;
    }
    if is_line(kind) {
        return is_digits(name);
    }
    (is_method(kind) || is_field(kind)) && is_dotted(name)
}

fn is_all(word: &[u8]) -> bool
    ensures { result ≡ is_all word.now }
{
    word == b"all".as_slice()
}

fn is_line(word: &[u8]) -> bool
    ensures { result ≡ is_line word.now }
{
    word == b"line".as_slice()
}

fn is_method(word: &[u8]) -> bool
    ensures { result ≡ is_method word.now }
{
    word == b"method".as_slice()
}

fn is_field(word: &[u8]) -> bool
    ensures { result ≡ is_field word.now }
{
    word == b"field".as_slice()
}
