//! A program that uses every rule, cut off behind each of its tokens.
use super::parse_line;
use px_parse::refused_line;
use std::alloc::AllocError;

// One token a line.
const PROGRAM: &[u8] =
    b"CREATE\nTABLE\nt\n(\na\nLONG\n,\nb\nTEXT\n)\n;\npublic\nclass\nC\n{\nprivate\nint\n[\n]\nx\n;\nResultSet\ny\n;\npublic\nvoid\nf\n(\nlong\na\n,\nD\n[\n]\nb\n)\nthrows\nSQLException\n{\n{\n}\n;\nint\n[\n]\nz\n=\nnew\nint\n[\n3\n]\n;\nD\nw\n=\nnew\nD\n(\n)\n;\nD\n[\n]\nv\n=\nb\n;\na\n=\n1\n;\nthis\n.\nx\n[\n0\n]\n=\n2\n;\na\n+=\n-\n1\n;\na\n++\n;\na\n--\n;\ng\n(\n)\n;\nb\n[\n1\n]\n.\ng\n(\na\n,\n\"s\"\n)\n;\nif\n(\ntrue\n)\nif\n(\nfalse\n)\n;\nelse\nreturn\n;\nwhile\n(\na\n<\n2\n)\nfor\n(\nint\ni\n=\n0\n;\ni\n<\n1\n;\ni\n++\n)\n{\n}\nfor\n(\ni\n=\n0\n;\n!\nc\n;\nh\n(\n)\n)\n;\nSystem\n.\nout\n.\nprintln\n(\n(\nint\n)\n(\na\n+\nb\n)\n)\n;\nreturn\na\n||\nb\n&&\nnull\n==\nc\n;\n}\n}\nclass\nD\n{\n}\n";

// Behind these lines the text is a program.
const ENDS: [u32; 2] = [183, 187];

fn is_end(lines: u32) -> bool {
    ENDS.contains(&lines)
}

#[test]
fn a_text_is_refused_where_it_is_cut_off(rt: HostRuntime) -> Result<(), AllocError> {
    let mut lines = 0u32;
    for (at, byte) in PROGRAM.iter().enumerate() {
        if *byte == b'\n' {
            lines = lines.wrapping_add(1);
            let front = &PROGRAM[..at + 1];
            let line = refused_line(rt.alloc(), front)?;
            assert_eq!(rt; parse_line(rt.alloc(), front)?, line, "behind line {lines}");
            if is_end(lines) {
                assert_eq!(rt; line, None, "behind line {lines}");
            } else {
                assert_eq!(rt; line, Some(lines.wrapping_add(1)), "behind line {lines}");
            }
        }
    }
    Ok(())
}
