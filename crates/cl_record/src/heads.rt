//! What an update says of itself.
ghost use Rattle.std.specs.Prelude.{◌≡◌, option_map};
ghost use Rattle.std.specs.Option.{option_copied};
ghost use Rattle.cl_value.specs.Value.{data_of};
ghost use Rattle.cl_record.specs.Heads.{measures_of};

use cl_medium::Ambient;
use cl_region::Rect;
use cl_syntax::Site;
use cl_value::{Value, Values};
use std::marker::Model;

/// What the evaluation of an update's body came to, by which it is known where the piece may be used
/// again.
#[derive(Clone, Copy)]
pub struct Measures {
    /// The forms entered.
    pub cost: u64,
    /// The levels below the body.
    pub reach: u32,
    /// The weight of the marks inside.
    pub weight: u64,
    /// The least and the greatest coordinates of the items inside and of the cursor.
    pub extent: Rect,
    /// Whether the left margin at the start was used.
    pub margin_used: bool,
    /// Whether the origin at the start was used.
    pub origin_used: bool,
    /// The state that the body was drawn from.
    pub start: Ambient,
    /// The cursor at the end.
    pub end_x: i64,
    pub end_y: i64,
}

/// The identity of an update among those of one level, the values of its cache, if it has one, and its
/// measures. A margin or an origin that was not used is no part of what is seen of it.
#[derive(Drop)]
pub struct Head {
    site: Site,
    id: Value,
    cache: Option<Values>,
    measures: Measures,
}

impl Model for Head {
    ghost use Rattle.cl_value.specs.Value.{data_of};
    ghost use Rattle.cl_record.specs.Heads.{HeadAt, head_code, measures_of};

    ghost Value = { HeadAt };

    ghost coded = { head_code };

    ghost view = { λ h. record
        { site = h.site; id = data_of h.id; cache = h.cache; measures = measures_of h.measures } };
}

impl Head {
    /// The head of these parts.
    pub fn new(site: Site, id: Value, cache: Option<Values>, measures: Measures) -> Head
        ensures { result
            ≡ record { site = site; id = data_of id; cache = cache; measures = measures_of measures } }
    {
        Head {
            site,
            id,
            cache,
            measures,
        }
    }

    /// Which form made it.
    pub fn site(&self) -> Site
        ensures { result ≡ self.now.site }
    {
        self.site
    }

    /// Its id among those of its form at its level.
    pub fn id(&self) -> &Value
        ensures { data_of result.now ≡ self.now.id }
    {
        &self.id
    }

    /// The values of its cache.
    pub fn cache(&self) -> Option<&Values>
        ensures { option_copied result ≡ self.now.cache }
    {
        self.cache.as_ref()
    }

    /// Its measures, in its own coordinates.
    pub fn measures(&self) -> Measures
        ensures { measures_of result ≡ self.now.measures }
    {
        self.measures
    }
}
