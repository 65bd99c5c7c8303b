//! The words of the command line.
ghost use Rattle.std.specs.Prelude.{◌≡◌, map};
ghost use Rattle.std.specs.Option.{option_map};
ghost use Rattle.std.specs.Str.{bytes_eq};
ghost use Rattle.px_main.specs.Commands.{command_of, kind_of, told_by};

/// What is done with a program and its job.
#[derive(Clone, Copy, Debug, PartialEq, Eq)]
pub enum Kind {
    /// The calls are run one after the other, from the tree.
    Run,
    /// The program is placed by each part, and shown with its sends.
    Split,
    /// The calls of one session are served by two ends.
    Solo,
}

/// A command, and the names of its files.
#[derive(Clone, Copy)]
pub enum Command<'a> {
    /// A program is checked.
    Check {
        program: &'a str,
    },
    /// The calls of a job are served.
    Serve {
        kind: Kind,
        program: &'a str,
        job: &'a str,
    },
}

fn is_text(a: &str, b: &str) -> bool
    ensures { result ≡ bytes_eq a.now b.now }
{
    a == b
}

fn kind_of(word: &str) -> Option<Kind>
    ensures { result ≡ kind_of word.now }
{
    if is_text(word, "run") {
        return Some(Kind::Run);
    }
    if is_text(word, "split") {
        return Some(Kind::Split);
    }
    if is_text(word, "solo") {
        return Some(Kind::Solo);
    }
    None
}

/// The command that the words are, if they are one.
pub fn read_command<'a>(words: &[&'a str]) -> Option<Command<'a>>
    ensures { command_of (map (λ w. w.now) words.now) ≡ option_map told_by result }
{
    match words {
        [word, program] => {
            if !is_text(word, "check") || program.is_empty() {
                return None;
            }
            Some(Command::Check { program })
        }
        [word, program, job] => {
            let kind = kind_of(word)?;
            if program.is_empty() || job.is_empty() {
                return None;
            }
            Some(Command::Serve { kind, program, job })
        }
        _ => None,
    }
}
