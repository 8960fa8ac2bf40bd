//! Lists of parts as they are printed.

ghost use Rattle.std.specs.Prelude.{◌≡◌, ◌++◌, OnOk, map};
ghost use Rattle.std.specs.List.{flat_map};
ghost use Rattle.prl_print.specs.Printing.{separated};

use std::alloc::AllocError;

/// A part of a program as it is printed.
pub trait Part {
    ghost use Rattle.std.specs.Prelude.{◌≡◌, ◌++◌, ℕ, List, OnOk};

    ghost printed: { Self → List ℕ };

    /// Appends the part to the text.
    fn push(&self, text: &mut Vec<u8>) -> Result<(), AllocError>
        ensures { OnOk result (text.new.items ≡ text.old.items ++ printed self.now) };
}

/// The parts, one after another.
pub fn push_each<T: Part>(text: &mut Vec<u8>, parts: &[T]) -> Result<(), AllocError>
    ensures { OnOk result (text.new.items ≡ text.old.items ++ flat_map T.printed parts.now) }
{
    for part in parts {
        part.push(text)?;
    }
    Ok(())
}

/// The parts, each after what stands between two of them.
fn push_others<T: Part>(text: &mut Vec<u8>, between: &[u8], parts: &[T]) -> Result<(), AllocError>
    ensures { OnOk result (text.new.items ≡ text.old.items ++ flat_map (λ other. between.now ++ other) (map T.printed parts.now)) }
{
    for part in parts {
        text.extend_from_slice(between)?;
        part.push(text)?;
    }
    Ok(())
}

/// The parts, with this between them.
pub fn push_separated<T: Part>(
    text: &mut Vec<u8>,
    between: &[u8],
    parts: &[T],
) -> Result<(), AllocError>
    ensures { OnOk result (text.new.items ≡ text.old.items ++ separated between.now (map T.printed parts.now)) }
{
    match parts {
        [] => Ok(()),
        [first, others @ ..] => {
            first.push(text)?;
            push_others(text, between, others)
        }
    }
}
