ghost use Rattle.std.specs.Prelude.{◌≡◌, IfOk, Ok};

use ra_base::OutOfMemory;

/// Two values where memory was found for both; else both are let go. A function that makes many values
/// takes them by pairs, so that it has one way out for want of memory and not one for each.
pub(crate) fn both<A: Drop, B: Drop>(
    first: Result<A, OutOfMemory>,
    second: Result<B, OutOfMemory>,
) -> Result<(A, B), OutOfMemory>
    ensures first { IfOk result (λ pair. first ≡ Ok pair.0) }
    ensures second { IfOk result (λ pair. second ≡ Ok pair.1) }
{
    Ok((first?, second?))
}
