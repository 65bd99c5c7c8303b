//! The text of a tree.
ghost use Rattle.std.specs.Prelude.{◌≡◌, ◌++◌, ◌∷◌, [], decimal, codes, map, OnOk, IfOk};
ghost use Rattle.std.specs.List.{flat_map};
ghost use Rattle.px_pyxil.specs.declared.line.Line.TheVariants as line;
ghost use Rattle.px_pyxil.specs.Words as w;
ghost use Rattle.px_pyxil.specs.Lines.{lines_in, lines_in_all, method_lines, send_lines};
ghost use Rattle.px_pyxil.specs.Spelling.{spaced, words, line_text, text_of};

use crate::statement::push_word;
use crate::tree::{At, Field, Head, Method, Pyxil, Site, Tree};
use crate::word::Word;
use crate::words::{
    push_count, push_member, push_name, push_number, push_operand, send_name, side_name,
};
use px_blocks::Send;
use px_normal::Operand;
use std::alloc::{AllocError, Global};

fn push_field(text: &mut Vec<u8>, field: &Field) -> Result<(), AllocError>
    ensures { OnOk result (text.new.items ≡ text.old.items ++ line_text (line.Field field.now)) }
{
    text.extend_from_slice(b"field")?;
    push_member(text, &field.field)?;
    push_name(text, side_name(field.side))?;
    text.extend_from_slice(b"\n")
}

fn push_site(text: &mut Vec<u8>, site: &Site) -> Result<(), AllocError>
    ensures { OnOk result (text.new.items ≡ text.old.items ++ line_text (line.Site site.now)) }
{
    text.extend_from_slice(b"site")?;
    push_count(text, site.number)?;
    push_name(text, side_name(site.side))?;
    text.extend_from_slice(b"\n")
}

fn push_head(text: &mut Vec<u8>, head: &Head) -> Result<(), AllocError>
    ensures { OnOk result (text.new.items ≡ text.old.items ++ line_text (line.Method head.now)) }
{
    text.extend_from_slice(b"method")?;
    push_count(text, head.at.node)?;
    push_name(text, side_name(head.at.side))?;
    push_member(text, &head.method)?;
    push_count(text, head.slots)?;
    text.extend_from_slice(b"\n")
}

// A node and its side, with which the line of a statement begins.
fn push_at(text: &mut Vec<u8>, at: At) -> Result<(), AllocError>
    ensures { OnOk result (text.new.items ≡ text.old.items ++ (decimal at.node ++ 32 ∷ w.side_name at.side)) }
{
    push_number(text, at.node)?;
    push_name(text, side_name(at.side))
}

fn push_do(text: &mut Vec<u8>, at: At, word: &Word) -> Result<(), AllocError>
    ensures { OnOk result (text.new.items ≡ text.old.items ++ line_text (line.Do at word.now)) }
{
    push_at(text, at)?;
    push_word(text, word)?;
    text.extend_from_slice(b"\n")
}

fn push_if(text: &mut Vec<u8>, at: At, test: &Operand) -> Result<(), AllocError>
    ensures { OnOk result (text.new.items ≡ text.old.items ++ line_text (line.If at test.now)) }
{
    push_at(text, at)?;
    text.extend_from_slice(b" if")?;
    push_operand(text, test)?;
    text.extend_from_slice(b"\n")
}

fn push_test(text: &mut Vec<u8>, at: At, test: &Operand) -> Result<(), AllocError>
    ensures { OnOk result (text.new.items ≡ text.old.items ++ line_text (line.Test at test.now)) }
{
    push_at(text, at)?;
    text.extend_from_slice(b" test")?;
    push_operand(text, test)?;
    text.extend_from_slice(b"\n")
}

fn push_send(text: &mut Vec<u8>, send: &Option<Send>) -> Result<(), AllocError>
    ensures { OnOk result (text.new.items ≡ text.old.items ++ flat_map line_text (send_lines send.now)) }
{
    match send {
        Some(send) => {
            text.extend_from_slice(send_name(send.kind))?;
            push_operand(text, &send.object)?;
            text.extend_from_slice(b"\n")
        }
        None => Ok(()),
    }
}

fn push_end(text: &mut Vec<u8>) -> Result<(), AllocError>
    ensures { OnOk result (text.new.items ≡ text.old.items ++ line_text line.End) }
{
    text.extend_from_slice(b"end\n")
}

#[cycle(push)]
fn push_tree(text: &mut Vec<u8>, tree: &Tree) -> Result<(), AllocError>
    ensures { OnOk result (text.new.items ≡ text.old.items ++ flat_map line_text (lines_in tree.now)) }
{
    match tree {
        Tree::Do { at, word, send } => {
            push_do(text, *at, word)?;
            push_send(text, send)
        }
        Tree::If { at, test, yes, no } => {
            push_if(text, *at, test)?;
            push_trees(text, yes.as_slice())?;
            text.extend_from_slice(b"else\n")?;
            push_trees(text, no.as_slice())?;
            push_end(text)
        }
        Tree::Loop {
            first,
            at,
            test,
            body,
        } => {
            text.extend_from_slice(b"loop\n")?;
            push_trees(text, first.as_slice())?;
            push_test(text, *at, test)?;
            push_trees(text, body.as_slice())?;
            push_end(text)
        }
    }
}

#[cycle(push)]
fn push_trees(text: &mut Vec<u8>, trees: &[Tree]) -> Result<(), AllocError>
    ensures { OnOk result (text.new.items ≡ text.old.items ++ flat_map line_text (lines_in_all trees.now)) }
{
    for tree in trees {
        push_tree(text, tree)?;
    }
    Ok(())
}

fn push_method(text: &mut Vec<u8>, method: &Method) -> Result<(), AllocError>
    ensures { OnOk result (text.new.items ≡ text.old.items ++ flat_map line_text (method_lines method.now)) }
{
    push_head(text, &method.head)?;
    push_trees(text, method.body.as_slice())?;
    push_end(text)
}

fn push_fields(text: &mut Vec<u8>, fields: &[Field]) -> Result<(), AllocError>
    ensures { OnOk result (text.new.items ≡ text.old.items ++ flat_map line_text (map line.Field fields.now)) }
{
    for field in fields {
        push_field(text, field)?;
    }
    Ok(())
}

fn push_sites(text: &mut Vec<u8>, sites: &[Site]) -> Result<(), AllocError>
    ensures { OnOk result (text.new.items ≡ text.old.items ++ flat_map line_text (map line.Site sites.now)) }
{
    for site in sites {
        push_site(text, site)?;
    }
    Ok(())
}

fn push_methods(text: &mut Vec<u8>, methods: &[Method]) -> Result<(), AllocError>
    ensures { OnOk result (text.new.items ≡ text.old.items ++ flat_map line_text (flat_map method_lines methods.now)) }
{
    for method in methods {
        push_method(text, method)?;
    }
    Ok(())
}

/// The text of the tree, line by line.
pub fn print(alloc: Global, pyxil: &Pyxil) -> Result<Vec<u8>, AllocError>
    ensures { IfOk result (λ text. text.items ≡ text_of pyxil.now) }
{
    let mut text = Vec::new(alloc);
    push_fields(&mut text, pyxil.fields.as_slice())?;
    push_sites(&mut text, pyxil.sites.as_slice())?;
    push_methods(&mut text, pyxil.methods.as_slice())?;
    Ok(text)
}
