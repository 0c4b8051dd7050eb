//! The least of offsets that there may be.
ghost use Rattle.std.specs.Prelude.{◌≡◌};
ghost use Rattle.cl_phases.specs.Earlier.{earlier, at_if};

/// The lesser of two offsets, or the one that there is.
pub fn earlier(one: Option<u32>, other: Option<u32>) -> Option<u32>
    ensures { result ≡ earlier one other }
{
    match one {
        None => other,
        Some(at) => match other {
            None => Some(at),
            Some(other) => Some(at.min(other)),
        },
    }
}

/// The offset, where there is something to tell.
pub fn at_if(holds: bool, at: u32) -> Option<u32>
    ensures { result ≡ at_if holds at }
{
    if holds { Some(at) } else { None }
}
