//! What the definitions of types and declarations say of the data of a text. The contracts are the laws.
ghost use Rattle.std.specs.Prelude.{◌≡◌, ◌↔◌, ℕ, List, Ok, Err};
ghost use Rattle.cl_forms.specs.Datum.{Datum, datums_of};
ghost use Rattle.cl_forms.specs.Outer.{outers_of};
ghost use Rattle.cl_words.specs.declared.signatures.Signatures.{Signatures};
ghost use Rattle.cl_expressions.specs.Load.{Notes};
ghost use Rattle.cl_declare.specs.Declarations.{parse_declarations};
ghost use Rattle.cl_declare.specs.declared.declarations.Declarations.{Declarations};
ghost use Rattle.cl_grammar.specs.Lies.{LieInText};
ghost use Rattle.cl_grammar.specs.Unnamed.{IsNoted};
ghost use Rattle.cl_text_grammar.specs.FormBlames.{IsFirst};
ghost use Rattle.cl_declaration_grammar.specs.Texts.{TextBlames, TextUnnamed};

/// The data of a text, which lie in it in order, are refused exactly where a form is to blame, with the number and the offset of
/// the first.
pub fn first_blame_of_a_text_is_told()
    ensures { (w : Signatures) (ds : List Datum) (u : Notes) (number offset : ℕ) → LieInText (datums_of ds)
        → (parse_declarations w (outers_of ds) u ≡ Err (number, offset)) ↔ IsFirst (TextBlames w ds) number offset }
{}

/// Where a form of a text is to blame, its declarations are not read.
pub fn blamed_text_is_refused()
    ensures { (w : Signatures) (ds : List Datum) (u v : Notes) (s : Declarations) (number offset : ℕ) → LieInText (datums_of ds)
        → TextBlames w ds number offset → parse_declarations w (outers_of ds) u ≡ Ok (s, v) → ⊥ }
{}

/// Where the declarations of a text are read, the first of its names that are not declared is noted, if none was noted before.
pub fn first_unnamed_of_a_text_is_noted()
    ensures { (w : Signatures) (ds : List Datum) (u v : Notes) (s : Declarations) → LieInText (datums_of ds)
        → parse_declarations w (outers_of ds) u ≡ Ok (s, v) → IsNoted (TextUnnamed w ds) u.unknown v.unknown }
{}
