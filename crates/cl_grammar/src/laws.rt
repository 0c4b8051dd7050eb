//! What the definition of the expressions says of a datum. The contracts are the laws.
ghost use Rattle.std.specs.Prelude.{◌≡◌, ◌↔◌, ℕ, List, Ok, Err};
ghost use Rattle.cl_syntax.specs.ExprTree.{ExprTree};
ghost use Rattle.cl_sexp.specs.Tokens.{tokens_of};
ghost use Rattle.cl_sexp.specs.declared.Token.{Token};
ghost use Rattle.cl_forms.specs.Datum.{Datum, datums_of};
ghost use Rattle.cl_forms.specs.Grouped.{grouped};
ghost use Rattle.cl_forms.specs.Outer.{Outer};
ghost use Rattle.cl_forms.specs.Spelled.{lexemes};
ghost use Rattle.cl_forms.specs.Tree.{Trees, spelled_all};
ghost use Rattle.cl_forms.specs.declared.grouping.Waiting.TheVariants.{Nothing};
ghost use Rattle.cl_words.specs.Signatures.{signatures_of};
ghost use Rattle.cl_words.specs.declared.signatures.Signatures.{Signatures};
ghost use Rattle.cl_expressions.specs.Load.{Notes};
ghost use Rattle.cl_expressions.specs.Scopes.{Names};
ghost use Rattle.cl_expressions.specs.Expressions.{parse_expression};
ghost use Rattle.cl_grammar.specs.Heads.{CallsNames};
ghost use Rattle.cl_grammar.specs.Writes.{Writes};
ghost use Rattle.cl_grammar.specs.Lies.{Lies, LieInText};
ghost use Rattle.cl_grammar.specs.Blames.{Blames, IsLeastBlame};
ghost use Rattle.cl_grammar.specs.Unnamed.{Unnamed, IsNoted};

/// What is read of a datum is written so.
#[tactic(auto, using(crate::proofs::Written::expression_written))]
pub fn parsed_is_written()
    ensures { (w : Signatures) (d : Datum) (env : Names) (u v : Notes) (t : ExprTree) → CallsNames w → parse_expression w d env u ≡ Ok (t, v) → Writes t d }
{}

/// No other expression writes a datum that is read.
#[tactic(auto, using(crate::proofs::OnlyWritten::only_parsed))]
pub fn parsed_alone_is_written()
    ensures { (w : Signatures) (d : Datum) (env : Names) (u v : Notes) (s t : ExprTree) → parse_expression w d env u ≡ Ok (t, v) → Writes s d → s ≡ t }
{}

/// The functions that a text declares have names.
pub fn declared_functions_have_names()
    ensures { (forms : List Outer) → CallsNames (signatures_of forms) }
{}

/// The data of a text lie in it in order, at every depth.
#[tactic(auto, using(crate::proofs::TextLies::text_lies))]
pub fn data_lie_in_order()
    ensures { (text : List ℕ) (tokens : List Token) (forms : Trees) → tokens_of text ≡ Ok tokens → lexemes text tokens ≡ spelled_all forms
        → LieInText (datums_of (grouped Nothing forms)) }
{}

/// A datum whose parts lie in order is refused exactly where a form in it is to blame, with the number and the offset of the first.
pub fn first_blame_is_told()
    ensures { (w : Signatures) (d : Datum) (env : Names) (from to : ℕ) (u : Notes) (number offset : ℕ) → Lies from d to
        → (parse_expression w d env u ≡ Err (number, offset)) ↔ IsLeastBlame w env d number offset }
{}

/// Where a form is to blame, nothing is read.
#[tactic(auto, using(crate::proofs::Verdicts::blamed_refused))]
pub fn blamed_is_refused()
    ensures { (w : Signatures) (d : Datum) (env : Names) (from to : ℕ) (u v : Notes) (t : ExprTree) (number offset : ℕ) → Lies from d to
        → Blames w env d number offset → parse_expression w d env u ≡ Ok (t, v) → ⊥ }
{}

/// Where a datum is read, the first of its names that are not declared is noted, if none was noted before.
#[tactic(auto, using(crate::proofs::Verdicts::least_noted))]
pub fn first_unnamed_is_noted()
    ensures { (w : Signatures) (d : Datum) (env : Names) (from to : ℕ) (u v : Notes) (t : ExprTree) → Lies from d to
        → parse_expression w d env u ≡ Ok (t, v) → IsNoted (Unnamed w env d) u.unknown v.unknown }
{}
