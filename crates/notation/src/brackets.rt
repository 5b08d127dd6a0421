//! What stands around a type or a term, and the brackets that it then needs.

ghost use Rattle.std.specs.Prelude.{◌≡◌, ◌++◌, OnOk, string_bytes};
ghost use Rattle.notation.specs.Brackets.{closing, opening, tight, wide};

use std::alloc::AllocError;

/// What stands around a part.
#[derive(Clone, Copy, Drop)]
pub enum Around {
    /// Nothing that could be taken for more of it.
    Open,
    /// It stands left of something, as a function before its argument.
    Head,
    /// It stands as an argument, or behind a mark.
    Tight,
}

impl Around {
    /// Whether what reaches as far right as it can needs brackets: `fun`, `let`, `if`, an arrow.
    pub fn is_wide(self) -> bool
        ensures { result ≡ wide self }
    {
        !matches!(self, Around::Open)
    }

    /// Whether an application and a pair of types need brackets.
    pub fn is_tight(self) -> bool
        ensures { result ≡ tight self }
    {
        matches!(self, Around::Tight)
    }
}

/// Appends an opening bracket, if one is needed.
pub fn open(out: &mut String, needed: bool) -> Result<(), AllocError>
    ensures { OnOk result (string_bytes out.new ≡ string_bytes out.old ++ opening needed) }
{
    if needed {
        out.push_str("(")?;
    }
    Ok(())
}

/// Appends a closing bracket, if one is needed.
pub fn close(out: &mut String, needed: bool) -> Result<(), AllocError>
    ensures { OnOk result (string_bytes out.new ≡ string_bytes out.old ++ closing needed) }
{
    if needed {
        out.push_str(")")?;
    }
    Ok(())
}
