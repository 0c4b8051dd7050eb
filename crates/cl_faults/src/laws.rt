//! What the first fault of a text is, and what a text has that loads. The contracts are the laws.
ghost use Rattle.std.specs.Prelude.{◌≡◌, ℕ, List, Err};
ghost use Rattle.cl_forms.specs.Datum.{Datum};
ghost use Rattle.cl_forms.specs.Outer.{outer_in, outers_of};
ghost use Rattle.cl_forms.specs.Tree.{Tree};
ghost use Rattle.cl_expressions.specs.Load.{Notes};
ghost use Rattle.cl_words.specs.declared.signatures.Signatures.{Signatures};
ghost use Rattle.cl_declare.specs.Declarations.{parse_declaration, parse_declarations};
ghost use Rattle.cl_declare.specs.declared.declarations.Declarations.{Declarations};
ghost use Rattle.cl_load.specs.Application.{AreForms, IsApplication, IsRefusal, data_of};
ghost use Rattle.cl_load.specs.Types.{Bounds};
ghost use Rattle.cl_application.specs.declared.applications.App.{App};
ghost use Rattle.cl_text_grammar.specs.FormBlames.{IsFirst};
ghost use Rattle.cl_faults.specs.Faults.{StandsIn, AreInOrder, IsLeastFault};
ghost use Rattle.cl_faults.specs.Loaded.{DataBlame, IsDeclared, IsFirstUnnamed};

/// The fault of a form stands in it, whatever was read before.
pub fn faults_stand_in_their_form()
    ensures { (w : Signatures) (d : Datum) (s : Declarations) (notes : Notes) (n o : ℕ)
        → parse_declaration w (outer_in d) s notes ≡ Err (n, o) → StandsIn o d }
{}

/// Of the faults of forms that stand in order, the one that is found first is that of least offset.
pub fn first_fault_has_least_offset()
    ensures { (w : Signatures) (ds : List Datum) (notes : Notes) (n o : ℕ) → AreInOrder ds
        → parse_declarations w (outers_of ds) notes ≡ Err (n, o) → IsLeastFault w ds n o }
{}

/// The data of the forms of a text stand in order.
pub fn data_stand_in_order()
    ensures { (bytes : List ℕ) (forms : List Tree) → AreForms bytes forms
        → AreInOrder (data_of forms) }
{}

/// The fault that is found first in the forms of a text is that of least offset.
pub fn first_fault_of_a_text_has_least_offset()
    ensures { (bytes : List ℕ) (forms : List Tree) (w : Signatures) (notes : Notes) (n o : ℕ)
        → AreForms bytes forms → parse_declarations w (outers_of (data_of forms)) notes ≡ Err (n, o)
        → IsLeastFault w (data_of forms) n o }
{}

/// In a text that loads, on whatever host types, no form is to blame, and each name is declared: no call has a wrong count, and no name is without its
/// declaration.
pub fn what_loads_is_declared()
    ensures { (bounds : Bounds) (bytes : List ℕ) (app : App) → IsApplication bounds bytes app
        → IsDeclared bytes }
{}

/// The first form of a text that is to blame is its refusal, on whatever host types.
pub fn first_blame_of_a_text_is_its_refusal()
    ensures { (bounds : Bounds) (bytes : List ℕ) (forms : List Tree) (number at : ℕ)
        → AreForms bytes forms → IsFirst (DataBlame (data_of forms)) number at
        → IsRefusal bounds bytes number at }
{}

/// The first name of a text that is not declared is its refusal, by 8, where nothing in the text is to blame, past a limit or
/// declared twice.
pub fn first_unnamed_of_a_text_is_its_refusal()
    ensures { (bounds : Bounds) (bytes : List ℕ) (forms : List Tree) (at : ℕ) → AreForms bytes forms
        → IsFirstUnnamed (data_of forms) at → IsRefusal bounds bytes 8 at }
{}
