//! How deep a program may nest, and which token is refused that stands one deeper. One token stands on a line.
use super::parse_line;
use px_parse::refused_line;
use std::alloc::{AllocError, Global};

// What stands before, what is repeated before the middle, the middle, what is repeated behind it, what stands behind; how often at most, and
// the line that is refused with one more.
type Nest = (
    &'static [u8],
    &'static [u8],
    &'static [u8],
    &'static [u8],
    &'static [u8],
    usize,
    u32,
);

const IN_RETURN: &[u8] = b"class C { int f() { return ";

const IN_BODY: &[u8] = b"class C { void f() { ";

const END: &[u8] = b"; } }";

// A token in a returned value has a block, a statement and an expression around it.
const NESTS: [Nest; 18] = [
    // The parentheses round an expression aren't in it.
    (IN_RETURN, b"\n(", b"\na", b")", END, 97, 100),
    (IN_RETURN, b"\n-", b"\na", b"", END, 97, 99),
    (IN_RETURN, b"\n!", b"\na", b"", END, 97, 99),
    // The parenthesis may be a group's.
    (IN_RETURN, b"\n(\nint\n)", b"\na", b"", END, 97, 294),
    (
        b"class C { int f() { return a",
        b"\n+\na",
        b"",
        b"",
        END,
        97,
        196,
    ),
    (
        b"class C { int f() { return a",
        b"\n.\nb",
        b"",
        b"",
        END,
        97,
        196,
    ),
    (IN_RETURN, b"\nf\n(", b"\na", b")", END, 97, 198),
    // A dot or an index counts in the expression around it, and what it holds is an expression.
    (IN_RETURN, b"\na\n.\nf\n(", b"\na", b")", END, 48, 198),
    (IN_RETURN, b"\na\n[", b"\na", b"]", END, 48, 100),
    (IN_RETURN, b"\nnew\nint\n[", b"\na", b"]", END, 97, 296),
    // The dot before the value counts too.
    (
        b"class C { void f() { this.x = a",
        b"\n*\na",
        b"",
        b"",
        END,
        96,
        194,
    ),
    // A declaration is no statement.
    (
        b"class C { void f() { long x = a",
        b"\n-\na",
        b"",
        b"",
        END,
        98,
        198,
    ),
    (
        b"class C { void f() { a",
        b"\n.\nb",
        b"\n=\n1",
        b"",
        END,
        97,
        199,
    ),
    (IN_BODY, b"\nif\n(\na\n)", b"", b"", END, 98, 396),
    (IN_BODY, b"\nif\n(\na\n)\n;\nelse", b"", b"", END, 98, 592),
    (IN_BODY, b"\nwhile\n(\na\n)", b"", b"", END, 98, 396),
    // Its parts are no statements of their own.
    (
        IN_BODY,
        b"\nfor\n(\ni\n=\n0\n;\na\n;\ni\n++\n)",
        b"",
        b"",
        END,
        98,
        1084,
    ),
    // A block that is a statement counts as both.
    (b"class C { void f() ", b"\n{", b"", b"}", b" }", 50, 52),
];

fn text_of(alloc: Global, nest: &Nest, times: usize) -> Result<Vec<u8>, AllocError> {
    let mut text = Vec::from_slice(alloc, nest.0)?;
    for _ in 0..times {
        text.extend_from_slice(nest.1)?;
    }
    text.extend_from_slice(nest.2)?;
    for _ in 0..times {
        text.extend_from_slice(nest.3)?;
    }
    text.extend_from_slice(nest.4)?;
    Ok(text)
}

#[test]
fn nesting_ends_at_a_hundred(rt: HostRuntime) -> Result<(), AllocError> {
    for nest in NESTS {
        let most = text_of(rt.alloc(), &nest, nest.5)?;
        assert!(rt; most.len() < 9000);
        assert_eq!(rt; parse_line(rt.alloc(), &most)?, None, "at {most:?}");
        let more = text_of(rt.alloc(), &nest, nest.5.saturating_add(1))?;
        assert!(rt; more.len() < 9000);
        let line = Some(nest.6);
        assert_eq!(rt; refused_line(rt.alloc(), &more)?, line, "at {more:?}");
    }
    Ok(())
}
