//! What parsing means. The contracts are the laws.
ghost use Rattle.cl_parser.specs.Laws.{ParsesMembers};

/// Where what a text reads as is a member of the type, as the law of `Types` has it, and each default is one of its argument's type,
/// there is a value for each argument, a member of its type.
#[tactic(auto, using(crate::proofs::MemberLemmas::parses_members))]
pub fn arguments_are_members()
    ensures { ParsesMembers }
{}
