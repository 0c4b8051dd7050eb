//! What tells an update from others.
ghost use Rattle.std.specs.Prelude.{◌≡◌, option_map};
ghost use Rattle.cl_syntax.specs.ExprTree.{expr_trees_of};

use crate::expressions::Expr;
use crate::sites::Site;
use std::marker::Model;

/// `:unique-id E :cache-value (list PATH ...)` of the `updating-output` at a site: the expression of its id, and those of the
/// paths of its cache, each of which may be left out.
#[derive(Drop)]
pub struct Update {
    site: Site,
    id: Option<Expr>,
    cache: Option<Vec<Expr>>,
}

impl Model for Update {
    ghost use Rattle.std.specs.Prelude.{option_map};
    ghost use Rattle.cl_syntax.specs.ExprTree.{expr_trees_of};
    ghost use Rattle.cl_syntax.specs.UpdateTree.{UpdateTree, coded_update};

    ghost Value = { UpdateTree };

    ghost coded = { coded_update };

    ghost view = { λ u. record { site = u.site; id = u.id; cache = option_map (λ ts. expr_trees_of ts.items) u.cache } };
}

impl Update {
    /// Of these parts.
    pub fn new(site: Site, id: Option<Expr>, cache: Option<Vec<Expr>>) -> Update
        ensures { result ≡ record { site = site; id = id; cache = option_map (λ ts. expr_trees_of ts.items) cache } }
    {
        Update { site, id, cache }
    }

    /// The place of the form.
    pub fn site(&self) -> Site
        ensures { result ≡ self.now.site }
    {
        self.site
    }

    /// The expression of the id; without one, ids are running numbers.
    pub fn id(&self) -> Option<&Expr>
        ensures { option_map (λ t. t.now) result ≡ self.now.id }
    {
        self.id.as_ref()
    }

    /// The paths of the cache; without one, the body is always evaluated.
    pub fn cache(&self) -> Option<&[Expr]>
        ensures { option_map (λ ts. expr_trees_of ts.now) result ≡ self.now.cache }
    {
        match &self.cache {
            Some(paths) => Some(paths.as_slice()),
            None => None,
        }
    }
}
