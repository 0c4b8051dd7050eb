//! Texts of values by their types, after the CLIM II specification's `present`.
ghost use Rattle.std.specs.Prelude.{◌≡◌, ◌+◌, ◌<◌, ◌^◌, ℕ, List, None, Some, true};
ghost use Rattle.cl_lattice.specs.Arguments.{trees_of};
ghost use Rattle.cl_lattice.specs.MemberRows.{parts_under};
ghost use Rattle.cl_lattice.specs.World.{kind_named};
ghost use Rattle.cl_lattice.specs.declared.declared_types.TypeKind.TheVariants as kind;
ghost use Rattle.cl_syntax.specs.StandardTypes.{standard_named};
ghost use Rattle.cl_syntax.specs.TypeSpecTree.{name_of};
ghost use Rattle.cl_value.specs.Value.{data_of, parts_of};
ghost use Rattle.cl_ptext.specs.Book.{inner_spec, separator_of};
ghost use Rattle.cl_ptext.specs.Presenting.{WritesAs, beside_by, declared_in, expanded, first_by, inherited_by, method_by, parts_in, sequence_by, some_by, standard_in, text_by, user_by, record_by};
ghost use Rattle.cl_ptext.specs.Texts.{each_joined};

use crate::books::TypeBook;
use crate::hosts::Hosts;
use crate::putting::{Writing, put, put_number, put_separator, put_string, put_subset};
use crate::specifiers::{args_of, separator_of};
use cl_application::MethodDecl;
use cl_eval::{Env, Scope, Standpoint, Stop, evaluate};
use cl_lattice::{Bound, TypeKind, UserType, is_null, is_one_of, next_spec, tokens_in};
use cl_outside::{Ledger, Steps};
use cl_syntax::{StandardType, TypeArg, TypeSpec};
use cl_value::{Held, Value};

/// What presents values: a book, and where present methods are evaluated.
#[derive(Drop)]
pub(crate) struct Presenter<'a, H> {
    pub(crate) book: &'a TypeBook<'a, H>,
    pub(crate) here: &'a Standpoint<'a>,
}

/// How the parts of a list are joined: each by its type, a separator between two.
#[derive(Clone, Copy)]
struct Joint<'a> {
    inner: &'a TypeSpec,
    separator: u8,
}

impl<H: Hosts> Presenter<'_, H> {
    /// Puts the text of a value behind the bytes, by a type with the parameters of the declaration around put in.
    #[cycle(text)]
    pub(crate) fn write<'s, L: Ledger>(
        &self,
        value: &Value,
        spec: &'s TypeSpec,
        bound: &Bound<'s>,
        writing: &mut Writing,
        steps: &mut Steps<L>,
    ) -> Result<(), Stop>
        requires { self.now.here.now.level + self.now.here.now.left < 2 ^ 32 }
        ensures text { WritesAs result writing.old writing.new
            (text_by H.entries self.now (expanded self.now.book.now bound.now spec.now) spec.now (data_of value.now)) }
        ensures ledger { steps.new + writing.old.meter.cost ≡ steps.old + writing.new.meter.cost }
    {
        match spec.name().standard() {
            Some(standard) => self.write_standard(standard, value, spec, bound, writing, steps),
            None => self.write_declared(value, spec, bound, writing, steps),
        }
    }

    // The rows of the standard types.
    #[cycle(text)]
    fn write_standard<'s, L: Ledger>(
        &self,
        standard: StandardType,
        value: &Value,
        spec: &'s TypeSpec,
        bound: &Bound<'s>,
        writing: &mut Writing,
        steps: &mut Steps<L>,
    ) -> Result<(), Stop>
        requires { self.now.here.now.level + self.now.here.now.left < 2 ^ 32 }
        ensures text { (x : List ℕ) → WritesAs result writing.old writing.new
            (text_by H.entries self.now (standard_in self.now.book.now standard x bound.now spec.now) spec.now (data_of value.now)) }
        ensures ledger { steps.new + writing.old.meter.cost ≡ steps.old + writing.new.meter.cost }
    {
        match standard {
            StandardType::T => put(value, writing),
            StandardType::Nil => put(value, writing),
            StandardType::Boolean => put(value, writing),
            StandardType::Integer => put(value, writing),
            StandardType::String => put_string(value, writing),
            StandardType::Symbol => put(value, writing),
            StandardType::Member => put(value, writing),
            StandardType::Subset => put_subset(value, separator_of(spec), writing),
            StandardType::Sequence => self.write_sequence(value, spec, bound, writing, steps),
            StandardType::Or => self.write_some(value, args_of(spec), bound, writing, steps),
            StandardType::And => { self.write_first(value, args_of(spec), bound, writing, steps) }
            StandardType::NullOrType => {
                self.write_beside(is_null(value), value, spec, bound, writing, steps)
            }
            StandardType::TokenOrType => {
                let token = is_one_of(tokens_in(args_of(spec)), value);
                self.write_beside(token, value, spec, bound, writing, steps)
            }
            StandardType::BlankArea => put(value, writing),
            StandardType::Command => put(value, writing),
            StandardType::DialogChoice => put(value, writing),
        }
    }

    // A list by the texts of its parts.
    #[cycle(text)]
    #[tactic(auto, using(crate::proofs::PartTypes::parts_of_spec))]
    fn write_sequence<'s, L: Ledger>(
        &self,
        value: &Value,
        spec: &'s TypeSpec,
        bound: &Bound<'s>,
        writing: &mut Writing,
        steps: &mut Steps<L>,
    ) -> Result<(), Stop>
        requires { self.now.here.now.level + self.now.here.now.left < 2 ^ 32 }
        ensures text { WritesAs result writing.old writing.new
            (sequence_by H.entries self.now (parts_in self.now.book.now bound.now spec.now) (separator_of spec.now) (inner_spec spec.now) (data_of value.now)) }
        ensures ledger { steps.new + writing.old.meter.cost ≡ steps.old + writing.new.meter.cost }
    {
        match next_spec(args_of(spec)) {
            Some((inner, _)) => match value {
                Value::List(parts) => {
                    let joint = Joint {
                        inner,
                        separator: separator_of(spec),
                    };
                    self.write_joined(parts.as_slice(), &joint, bound, writing, steps)
                }
                _ => put(value, writing),
            },
            None => put(value, writing),
        }
    }

    // The texts of values, joined.
    #[cycle(text)]
    fn write_joined<'s, L: Ledger>(
        &self,
        values: &[Value],
        joint: &Joint<'s>,
        bound: &Bound<'s>,
        writing: &mut Writing,
        steps: &mut Steps<L>,
    ) -> Result<(), Stop>
        requires { self.now.here.now.level + self.now.here.now.left < 2 ^ 32 }
        ensures text { WritesAs result writing.old writing.new
            (each_joined true joint.now.separator (text_by H.entries self.now (expanded self.now.book.now bound.now joint.now.inner.now) joint.now.inner.now) (parts_of values.now)) }
        ensures ledger { steps.new + writing.old.meter.cost ≡ steps.old + writing.new.meter.cost }
    {
        let mut first = true;
        for value in values {
            put_separator(first, joint.separator, &mut writing.bytes)?;
            self.write(value, joint.inner, bound, writing, steps)?;
            first = false;
        }
        Ok(())
    }

    // By the first part of which the value is a member.
    #[cycle(text)]
    #[tactic(auto, using(crate::proofs::PartTypes::parts_next))]
    fn write_some<'s, L: Ledger>(
        &self,
        value: &Value,
        args: &'s [TypeArg],
        bound: &Bound<'s>,
        writing: &mut Writing,
        steps: &mut Steps<L>,
    ) -> Result<(), Stop>
        requires { self.now.here.now.level + self.now.here.now.left < 2 ^ 32 }
        ensures text { WritesAs result writing.old writing.new
            (some_by H.entries self.now (parts_under self.now.book.now.lattice.now bound.now args.now) (trees_of args.now) (data_of value.now)) }
        ensures ledger { steps.new + writing.old.meter.cost ≡ steps.old + writing.new.meter.cost }
    {
        match next_spec(args) {
            Some((spec, more)) => match self.book.member_under(value, spec, bound) {
                Held::Yes => self.write(value, spec, bound, writing, steps),
                Held::No => self.write_some(value, more, bound, writing, steps),
                Held::Memory => Err(Stop::Memory),
            },
            None => put(value, writing),
        }
    }

    // By the first part.
    #[cycle(text)]
    #[tactic(auto, using(crate::proofs::PartTypes::parts_next))]
    fn write_first<'s, L: Ledger>(
        &self,
        value: &Value,
        args: &'s [TypeArg],
        bound: &Bound<'s>,
        writing: &mut Writing,
        steps: &mut Steps<L>,
    ) -> Result<(), Stop>
        requires { self.now.here.now.level + self.now.here.now.left < 2 ^ 32 }
        ensures text { WritesAs result writing.old writing.new
            (first_by H.entries self.now (parts_under self.now.book.now.lattice.now bound.now args.now) (trees_of args.now) (data_of value.now)) }
        ensures ledger { steps.new + writing.old.meter.cost ≡ steps.old + writing.new.meter.cost }
    {
        match next_spec(args) {
            Some((spec, _)) => self.write(value, spec, bound, writing, steps),
            None => put(value, writing),
        }
    }

    // What is taken beside the first part by its plain form, else by that part.
    #[cycle(text)]
    #[tactic(auto, using(crate::proofs::PartTypes::parts_of_spec))]
    fn write_beside<'s, L: Ledger>(
        &self,
        beside: bool,
        value: &Value,
        spec: &'s TypeSpec,
        bound: &Bound<'s>,
        writing: &mut Writing,
        steps: &mut Steps<L>,
    ) -> Result<(), Stop>
        requires { self.now.here.now.level + self.now.here.now.left < 2 ^ 32 }
        ensures text { WritesAs result writing.old writing.new
            (beside_by H.entries self.now beside (parts_in self.now.book.now bound.now spec.now) spec.now (data_of value.now)) }
        ensures ledger { steps.new + writing.old.meter.cost ≡ steps.old + writing.new.meter.cost }
    {
        if beside {
            return put(value, writing);
        }
        match next_spec(args_of(spec)) {
            Some((inner, _)) => self.write(value, inner, bound, writing, steps),
            None => put(value, writing),
        }
    }

    // Records, host types and user types.
    #[cycle(text)]
    fn write_declared<'s, L: Ledger>(
        &self,
        value: &Value,
        spec: &'s TypeSpec,
        bound: &Bound<'s>,
        writing: &mut Writing,
        steps: &mut Steps<L>,
    ) -> Result<(), Stop>
        requires level { self.now.here.now.level + self.now.here.now.left < 2 ^ 32 }
        requires standard { standard_named (name_of spec.now) ≡ None }
        ensures text { WritesAs result writing.old writing.new
            (text_by H.entries self.now (declared_in self.now.book.now bound.now spec.now) spec.now (data_of value.now)) }
        ensures ledger { steps.new + writing.old.meter.cost ≡ steps.old + writing.new.meter.cost }
    {
        self.book.lattice.all_fit();
        let name = spec.name().as_slice();
        match self.book.lattice.kind(name) {
            Some(kind) => match kind {
                TypeKind::Record => self.write_record(name, value, writing, steps),
                TypeKind::Host(_, _) => put_number(self.book.hosts, name, value, writing),
                TypeKind::User(user) => self.write_user(user, value, spec, bound, writing, steps),
            },
            None => put(value, writing),
        }
    }

    // By the method of the user type, else by what it inherits from.
    #[cycle(text)]
    fn write_user<'s, L: Ledger>(
        &self,
        user: &UserType,
        value: &Value,
        spec: &'s TypeSpec,
        bound: &Bound<'s>,
        writing: &mut Writing,
        steps: &mut Steps<L>,
    ) -> Result<(), Stop>
        requires level { self.now.here.now.level + self.now.here.now.left < 2 ^ 32 }
        requires named { kind_named (name_of spec.now) self.now.book.now.lattice.now ≡ Some (kind.User user.now) }
        ensures text { WritesAs result writing.old writing.new
            (user_by H.entries self.now (name_of spec.now) (inherited_by self.now.book.now bound.now spec.now user.now) user.now.inherit_from (data_of value.now)) }
        ensures ledger { steps.new + writing.old.meter.cost ≡ steps.old + writing.new.meter.cost }
    {
        match self.book.app.present_method(spec.name().as_slice()) {
            Some(method) => self.write_by(method, value, writing, steps),
            None => {
                let args = args_of(spec);
                let inner = Bound::Given(&user.parameters, &*args, &*bound);
                self.write(value, &user.inherit_from, &inner, writing, steps)
            }
        }
    }

    // By the method of the record type, else the plain form.
    fn write_record<L: Ledger>(
        &self,
        name: &[u8],
        value: &Value,
        writing: &mut Writing,
        steps: &mut Steps<L>,
    ) -> Result<(), Stop>
        requires { self.now.here.now.level + self.now.here.now.left < 2 ^ 32 }
        ensures text { WritesAs result writing.old writing.new (record_by self.now name.now (data_of value.now)) }
        ensures ledger { steps.new + writing.old.meter.cost ≡ steps.old + writing.new.meter.cost }
    {
        match self.book.app.present_method(name) {
            Some(method) => self.write_by(method, value, writing, steps),
            None => put(value, writing),
        }
    }

    // By a present method.
    fn write_by<L: Ledger>(
        &self,
        method: &MethodDecl,
        value: &Value,
        writing: &mut Writing,
        steps: &mut Steps<L>,
    ) -> Result<(), Stop>
        requires { self.now.here.now.level + self.now.here.now.left < 2 ^ 32 }
        ensures text { WritesAs result writing.old writing.new (method_by self.now method.now (data_of value.now)) }
        ensures ledger { steps.new + writing.old.meter.cost ≡ steps.old + writing.new.meter.cost }
    {
        let nothing = Env::new(self.book.alloc);
        let outer = Scope::Given(&nothing);
        let scope = Scope::Bound(&method.parameter, &*value, &outer);
        let inner = Standpoint {
            scope: &scope,
            ..*self.here
        };
        let given = evaluate(&inner, &method.body, &mut writing.meter, steps)?;
        let Value::Text(text) = given else {
            return Err(Stop::Trap(1));
        };
        writing.bytes.extend_from_slice(text.as_slice())?;
        Ok(())
    }
}
