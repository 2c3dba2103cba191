//! Lines that are comments.

ghost use Rattle.std.specs.Prelude.{◌≡◌};
ghost use Rattle.refutation_check.specs.DataLines.{is_comment};

/// Whether the line is a comment: it begins with a `c`.
pub fn is_comment(line: &[u8]) -> bool
    ensures { result ≡ is_comment line.now }
{
    matches!(line, [b'c', ..])
}
