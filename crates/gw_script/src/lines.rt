//! The lines of a script.
ghost use Rattle.std.specs.Prelude.{◌≡◌, ◌==◌, IfOk, map};
ghost use Rattle.gw_script.specs.Lines.{directives_of, first_of, is_directive, lines_of, told_by};

use std::alloc::{AllocError, Global};

/// A directive of a script.
#[derive(Clone, Copy, Debug)]
pub struct Line<'a> {
    /// The number of the line, from 1.
    pub number: usize,
    /// What it says, without its end.
    pub text: &'a [u8],
}

/// The first line, which an empty script has too.
pub fn first_line(script: &[u8]) -> &[u8]
    ensures { result.now ≡ first_of (lines_of script.now) }
{
    script.split(is_line_end).next().unwrap_or(&[])
}

/// The directives behind the first line, in their order: each other line but empty ones and comments. An
/// error is an allocation failure alone.
pub fn directives(alloc: Global, script: &[u8]) -> Result<Vec<Line<'_>>, AllocError>
    ensures { IfOk result (λ lines. map told_by lines.items ≡ directives_of script.now) }
{
    script
        .split(is_line_end)
        .enumerate()
        .skip(1)
        .filter(|(_, text)| is_directive(text))
        .map(|(index, text)| Line {
            number: index + 1,
            text,
        })
        .collect(alloc)
}

// The last line may lack its end.
fn is_line_end(octet: &u8) -> bool
    ensures { result ≡ (octet.now == 10) }
{
    *octet == b'\n'
}

fn is_directive(line: &[u8]) -> bool
    ensures { result ≡ is_directive line.now }
{
    !matches!(line.first(), None | Some(b'#'))
}
