//! How a text is laid out.

ghost use Rattle.std.specs.Prelude.{◌≡◌, ◌++◌, OnOk, IfOk, IfErr, codes};
ghost use Rattle.std.specs.List.{repeat};
ghost use Rattle.std.specs.String.{string_bytes};
ghost use Rattle.content_json.specs.Layout.{colon, deeper, line};
ghost use Rattle.content_json.specs.declared.encode_error.EncodeError.TheVariants.{OutOfMemory};

use crate::encode_error::EncodeError;
use std::alloc::AllocError;

/// On one line, or each part on a line of its own, two spaces a level.
#[derive(Clone, Copy, Drop)]
pub(crate) enum Layout {
    Compact,
    Pretty { level: usize },
}

impl Layout {
    /// The layout of parts. No value in memory nests so deep that the level has no room.
    pub(crate) fn deeper(self) -> Result<Layout, EncodeError>
        ensures value { IfOk result (λ inner. inner ≡ deeper self) }
        ensures memory { IfErr result (λ e. e ≡ OutOfMemory) }
    {
        match self {
            Layout::Compact => Ok(Layout::Compact),
            Layout::Pretty { level } => match level.checked_add(1) {
                Some(level) => Ok(Layout::Pretty { level }),
                None => Err(EncodeError::OutOfMemory),
            },
        }
    }

    /// Appends what leads to a line of this layout.
    pub(crate) fn write_line(self, out: &mut String) -> Result<(), AllocError>
        ensures { OnOk result (string_bytes out.new ≡ string_bytes out.old ++ line self) }
    {
        match self {
            Layout::Compact => Ok(()),
            Layout::Pretty { level } => {
                out.push('\n')?;
                write_indent(level, out)
            }
        }
    }

    /// Appends what comes between a key and its value.
    pub(crate) fn write_colon(self, out: &mut String) -> Result<(), AllocError>
        ensures { OnOk result (string_bytes out.new ≡ string_bytes out.old ++ colon self) }
    {
        out.push_str(match self {
            Layout::Compact => ":",
            Layout::Pretty { level: _ } => ": ",
        })
    }
}

/// Appends two spaces a level.
fn write_indent(level: usize, out: &mut String) -> Result<(), AllocError>
    ensures { OnOk result (string_bytes out.new ≡ string_bytes out.old ++ repeat level (codes "  ")) }
{
    let mut left = level;
    while left > 0 {
        out.push_str("  ")?;
        left -= 1;
    }
    Ok(())
}
