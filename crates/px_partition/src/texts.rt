//! The texts of profiles and plans.
ghost use Rattle.std.specs.Prelude.{◌≡◌, ◌++◌, ◌∷◌, ◌<◌, ◌^◌, ◌-◌, length, OnOk};
ghost use Rattle.px_normal.specs.First.{numbered};
ghost use Rattle.px_partition.specs.Runs.{AreFew};
ghost use Rattle.px_partition.specs.Words.{words_of};
ghost use Rattle.px_partition.specs.Texts.{spaced, sums, side_name, name_or, name_at, count_line, count_by, count_lines, profile_text, part_line, side_line, side_lines, plan_text};

use crate::plan::Plan;
use crate::runs::told_by;
use crate::words::NodeWord;
use itoa::{Buffer, Integer};
use px_code::{Counts, Side};
use px_graph::side_at;
use px_normal::{Code, Node, NodeKind};
use std::alloc::AllocError;

fn push_number<I: Integer>(text: &mut Vec<u8>, number: I) -> Result<(), AllocError>
    ensures { OnOk result (text.new.items ≡ text.old.items ++ I.text number) }
{
    text.extend_from_slice(Buffer::new().format(number).as_bytes())
}

// A number with a space before it.
fn push_spaced<I: Integer>(text: &mut Vec<u8>, number: I) -> Result<(), AllocError>
    ensures { OnOk result (text.new.items ≡ text.old.items ++ 32 ∷ I.text number) }
{
    text.push(b' ')?;
    push_number(text, number)
}

// A word with a space before it.
fn push_word(text: &mut Vec<u8>, word: &[u8]) -> Result<(), AllocError>
    ensures { OnOk result (text.new.items ≡ text.old.items ++ 32 ∷ word.now) }
{
    text.push(b' ')?;
    text.extend_from_slice(word)
}

fn side_name(side: Side) -> &'static [u8]
    ensures { result.now ≡ side_name side }
{
    match side {
        Side::App => b"APP",
        Side::Db => b"DB",
    }
}

fn name_at(words: &[Option<NodeWord>], node: u32) -> &'static [u8]
    ensures { result.now ≡ name_at words.now node }
{
    if node == 0 {
        return b"";
    }
    match sqlite_items::at(words, node as usize - 1) {
        Some(Some(word)) => word.name(),
        _ => b"",
    }
}

fn push_count(
    text: &mut Vec<u8>,
    counts: &Counts,
    words: &[Option<NodeWord>],
    number: u32,
    node: &Node,
) -> Result<(), AllocError>
    requires few { AreFew counts.now }
    ensures { OnOk result (text.new.items ≡ text.old.items ++ count_line counts.now words.now number node.now) }
{
    push_number(text, number)?;
    push_spaced(text, told_by(counts, node.counter))?;
    push_spaced(text, node.line)?;
    push_word(text, name_at(words, number))?;
    text.extend_from_slice(b"\n")
}

fn push_if_counted(
    text: &mut Vec<u8>,
    counts: &Counts,
    words: &[Option<NodeWord>],
    number: u32,
    node: &Node,
) -> Result<(), AllocError>
    requires few { AreFew counts.now }
    ensures { OnOk result (text.new.items ≡ text.old.items ++ count_by node.now.kind (count_line counts.now words.now number node.now)) }
{
    match node.kind {
        NodeKind::Method => push_count(text, counts, words, number, node),
        NodeKind::Normal => push_count(text, counts, words, number, node),
        _ => Ok(()),
    }
}

/// How often each method was entered and each statement ran. The words are the code's.
pub fn push_profile(
    text: &mut Vec<u8>,
    code: &Code,
    words: &[Option<NodeWord>],
    counts: &Counts,
) -> Result<(), AllocError>
    requires few { AreFew counts.now }
    requires nodes { length code.now.nodes < 2 ^ 32 - 1 }
    requires words { words.now ≡ words_of code.now }
    ensures { OnOk result (text.new.items ≡ text.old.items ++ profile_text code.now counts.now) }
{
    let mut number: u32 = 0;
    for node in code.nodes.as_slice() {
        number += 1;
        push_if_counted(text, counts, words, number, node)?;
    }
    Ok(())
}

fn push_labelled<I: Integer>(text: &mut Vec<u8>, label: &[u8], number: I) -> Result<(), AllocError>
    ensures { OnOk result (text.new.items ≡ text.old.items ++ label.now ++ I.text number) }
{
    text.extend_from_slice(label)?;
    push_number(text, number)
}

fn push_sums(text: &mut Vec<u8>, plan: &Plan) -> Result<(), AllocError>
    ensures { OnOk result (text.new.items ≡ text.old.items ++ spaced (sums plan.now)) }
{
    push_labelled(text, b" cost ", plan.cost)?;
    push_labelled(text, b" load ", plan.load)?;
    push_labelled(text, b" app ", plan.app)?;
    push_labelled(text, b" db ", plan.db)
}

fn push_part(text: &mut Vec<u8>, name: &[u8], plan: &Plan) -> Result<(), AllocError>
    ensures { OnOk result (text.new.items ≡ text.old.items ++ part_line name.now plan.now) }
{
    text.extend_from_slice(b"part ")?;
    text.extend_from_slice(name)?;
    push_sums(text, plan)?;
    text.extend_from_slice(b"\n")
}

fn push_side(
    text: &mut Vec<u8>,
    sides: &[Side],
    words: &[Option<NodeWord>],
    number: u32,
    node: &Node,
) -> Result<(), AllocError>
    ensures { OnOk result (text.new.items ≡ text.old.items ++ side_line sides.now words.now number node.now) }
{
    push_number(text, number)?;
    push_word(text, side_name(side_at(sides, number)))?;
    push_spaced(text, node.line)?;
    push_word(text, name_at(words, number))?;
    text.extend_from_slice(b"\n")
}

fn push_sides(
    text: &mut Vec<u8>,
    sides: &[Side],
    words: &[Option<NodeWord>],
    nodes: &[Node],
) -> Result<(), AllocError>
    requires nodes { length nodes.now < 2 ^ 32 - 1 }
    ensures { OnOk result (text.new.items ≡ text.old.items ++ side_lines sides.now words.now 1 nodes.now) }
{
    let mut number: u32 = 0;
    for node in nodes {
        number += 1;
        push_side(text, sides, words, number, node)?;
    }
    Ok(())
}

/// What a part costs and loads, and where each node is. The words are the code's.
pub fn push_plan(
    text: &mut Vec<u8>,
    code: &Code,
    words: &[Option<NodeWord>],
    name: &[u8],
    plan: &Plan,
) -> Result<(), AllocError>
    requires nodes { length code.now.nodes < 2 ^ 32 - 1 }
    requires words { words.now ≡ words_of code.now }
    ensures { OnOk result (text.new.items ≡ text.old.items ++ plan_text code.now name.now plan.now) }
{
    push_part(text, name, plan)?;
    push_sides(
        text,
        plan.placement.sides.as_slice(),
        words,
        code.nodes.as_slice(),
    )
}
