//! The lines of a file.

ghost use Rattle.std.specs.Prelude.{◌≡◌, ◌≤◌, ◌<◌, ◌+◌, ◌∷◌, List, ℕ, length};
ghost use Rattle.px_job.specs.Lines.{lines_of, end_len};

/// The first line, and what follows it.
pub(crate) fn split_line(bytes: &[u8]) -> (&[u8], &[u8])
    requires { 0 < length bytes.now }
    ensures lines { lines_of bytes.now ≡ result.0.now ∷ lines_of result.1.now }
    ensures shorter { length result.1.now < length bytes.now }
{
    let mut len = 0;
    while len < bytes.len() {
        let end = end_len(&bytes[len..]);
        if end > 0 {
            return (&bytes[..len], &bytes[len + end..]);
        }
        len += 1;
    }
    (bytes, &[])
}

// How many bytes end a line here; none where it goes on.
fn end_len(bytes: &[u8]) -> usize
    ensures ends { result ≡ end_len bytes.now }
    ensures within { result ≤ length bytes.now }
{
    match bytes {
        [b'\n', ..] => 1,
        [b'\r', b'\n', ..] => 2,
        _ => 0,
    }
}
