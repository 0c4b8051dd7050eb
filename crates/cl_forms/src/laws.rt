//! What the definitions of this crate say. The contract is the law.
ghost use Rattle.std.specs.Prelude.{◌≡◌};
ghost use Rattle.cl_forms.specs.Datum.{datums_of};
ghost use Rattle.cl_forms.specs.Grouped.{grouped};
ghost use Rattle.cl_forms.specs.Quotes.{AreWritten};
ghost use Rattle.cl_forms.specs.Tree.{Trees, spelled_all};
ghost use Rattle.cl_forms.specs.declared.grouping.Waiting.TheVariants.{Nothing};

/// There is one tree for what is written, so a text has one tree of forms.
#[tactic(auto, using(crate::proofs::OneTree::one_forest))]
pub fn one_tree()
    ensures { (a b : Trees) → spelled_all a ≡ spelled_all b → a ≡ b }
{}

/// The data of forms are written as the forms are: a quoted name as a quote and the name that follows it.
#[tactic(auto, using(crate::proofs::QuoteLemmas::data_written))]
pub fn data_are_written()
    ensures { (ts : Trees) → AreWritten (datums_of (grouped Nothing ts)) (spelled_all ts) }
{}
