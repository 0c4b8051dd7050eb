//! Paths among others.
ghost use Rattle.std.specs.Prelude.{◌≡◌, ◌∷◌, IfOk};
ghost use Rattle.cl_syntax.specs.Paths.{has_prefix};

use cl_syntax::Path;
use cl_table::Names;
use cl_value::Text;
use std::alloc::{AllocError, Global};

/// Whether one of the paths is this one, or a beginning of it.
pub(crate) fn has_prefix(listed: &[Path], path: &Path) -> bool
    ensures { result ≡ has_prefix listed.now path.now }
{
    for one in listed {
        if one.is_prefix(path) {
            return true;
        }
    }
    false
}

/// The names, with one before them.
pub(crate) fn names_behind(alloc: Global, name: &Text, names: &Names) -> Result<Names, AllocError>
    ensures { IfOk result (λ all. all ≡ name.now ∷ names.now) }
{
    let mut all = Names::new(alloc);
    all.push(name.copy()?)?;
    for next in names.as_slice() {
        all.push(next.copy()?)?;
    }
    Ok(all)
}
