//! The names of what is thrown, of parts and of kinds of objects.
ghost use Rattle.std.specs.Prelude.{◌≡◌, ◌++◌, OnOk};
ghost use Rattle.px_report.specs.Words.{class_name, element_name, kind_name, name_at, part_name, thrown_name};

use px_value::{Kind, Text, Thrown};
use std::alloc::AllocError;

pub fn thrown_name(thrown: Thrown) -> &'static [u8]
    ensures { result.now ≡ thrown_name thrown }
{
    match thrown {
        Thrown::ArithmeticException => b"ArithmeticException",
        Thrown::NullPointerException => b"NullPointerException",
        Thrown::ArrayIndexOutOfBoundsException => b"ArrayIndexOutOfBoundsException",
        Thrown::NegativeArraySizeException => b"NegativeArraySizeException",
        Thrown::SQLException => b"SQLException",
        Thrown::TurnsOut => b"TurnsOut",
        Thrown::StackOverflowError => b"StackOverflowError",
        Thrown::OpsOut => b"OpsOut",
        Thrown::PrintsOut => b"PrintsOut",
        Thrown::HeapFull => b"HeapFull",
        Thrown::TextTooLong => b"TextTooLong",
    }
}

fn name_at(names: &[Text], place: usize) -> &[u8]
    ensures { result.now ≡ name_at names.now place }
{
    match names.get(place) {
        Some(name) => name.as_slice(),
        None => b"",
    }
}

pub fn part_name(parts: &[Text], part: u8) -> &[u8]
    ensures { result.now ≡ part_name parts.now part }
{
    name_at(parts, part as usize)
}

fn class_name(classes: &[Text], class: u16) -> &[u8]
    ensures { result.now ≡ class_name classes.now class }
{
    name_at(classes, class as usize)
}

fn element_name(classes: &[Text], element: u16) -> &[u8]
    ensures { result.now ≡ element_name classes.now element }
{
    match element {
        0 => b"int",
        1 => b"long",
        2 => b"boolean",
        3 => b"String",
        _ => class_name(classes, element - 4),
    }
}

pub fn push_kind_name(text: &mut Vec<u8>, classes: &[Text], kind: Kind) -> Result<(), AllocError>
    ensures { OnOk result (text.new.items ≡ text.old.items ++ kind_name classes.now kind) }
{
    match kind {
        Kind::Object(class) => text.extend_from_slice(class_name(classes, class)),
        Kind::Array(element) => {
            text.extend_from_slice(element_name(classes, element))?;
            text.extend_from_slice(b"[]")
        }
        Kind::Rows(_) => text.extend_from_slice(b"Rows"),
    }
}
