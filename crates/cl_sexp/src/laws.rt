//! What the definition of the tokens says of a text. The contracts are the laws.
ghost use Rattle.std.specs.Prelude.{◌≡◌, ◌↔◌, ℕ, List};
ghost use Rattle.cl_sexp.specs.Tokens.{tokens_of, Nests};
ghost use Rattle.cl_sexp.specs.Lies.{Lies, Rises, joined};
ghost use Rattle.cl_sexp.specs.Faults.{FirstFault};
ghost use Rattle.cl_sexp.specs.declared.Token.{Token};

/// Between the tokens of a text stand white space and comments alone, and each word is the longest.
#[tactic(auto, using(crate::proofs::Lying::lies_of))]
pub fn tokens_lie()
    ensures { (text : List ℕ) (tokens : List Token) → tokens_of text ≡ Ok tokens → Lies 0 text tokens }
{}

/// The tokens' slices with what stands between them are the text.
#[tactic(auto, using(crate::proofs::Lying::join_of))]
pub fn tokens_join()
    ensures { (text : List ℕ) (tokens : List Token) → tokens_of text ≡ Ok tokens → joined text 0 tokens ≡ text }
{}

/// Each token has bytes, and begins where the one before ends, or later.
#[tactic(auto, using(crate::proofs::Lying::rises_of))]
pub fn tokens_rise()
    ensures { (text : List ℕ) (tokens : List Token) → tokens_of text ≡ Ok tokens → Rises 0 tokens }
{}

/// What lies so in a text, with its forms closed and at most 64 deep, is what is read: there are no other tokens.
#[tactic(auto, using(crate::proofs::Reading::read_of))]
pub fn tokens_are_read()
    ensures { (text : List ℕ) (tokens : List Token) → Lies 0 text tokens → Nests 0 tokens → tokens_of text ≡ Ok tokens }
{}

/// A text is refused exactly where blanks and tokens lead up to a fault, with the number and the place of that fault.
#[tactic(auto, using(crate::proofs::Faulty::fault_of))]
pub fn first_fault_is_told()
    ensures { (text : List ℕ) (number place : ℕ) → (tokens_of text ≡ Err (number, place)) ↔ FirstFault 0 0 text number place }
{}
