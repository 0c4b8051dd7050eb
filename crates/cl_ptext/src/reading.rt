//! Reading of texts by types, after the CLIM II specification's `accept`.
ghost use Rattle.std.specs.Prelude.{◌≡◌, [], ℕ, List, None, Some, option_map};
ghost use Rattle.cl_value.specs.Value.{data_of};
ghost use Rattle.cl_lattice.specs.Arguments.{trees_of};
ghost use Rattle.cl_lattice.specs.MemberRows.{parts_under};
ghost use Rattle.cl_lattice.specs.World.{kind_named};
ghost use Rattle.cl_lattice.specs.declared.declared_types.TypeKind.TheVariants as kind;
ghost use Rattle.cl_syntax.specs.StandardTypes.{standard_named};
ghost use Rattle.cl_syntax.specs.TypeSpecTree.{name_of};
ghost use Rattle.cl_ptext.specs.Answers.{ReadsAs, object_if};
ghost use Rattle.cl_ptext.specs.Parts.{part_in, pieces};
ghost use Rattle.cl_ptext.specs.Presenting.{beside_read, book_of, declared_in, element_read, expanded, first_read, inherited_by, only_by, parts_in, reading_by, record_read, row_by, sequence_read, some_read, standard_in, user_read};
ghost use Rattle.cl_ptext.specs.Readings.{each_read, part_read};

use crate::books::TypeBook;
use crate::hosts::{Hosts, host_value};
use crate::methods::accepted;
use crate::parts::part_in;
use crate::pieces::split_piece;
use crate::specifiers::{args_of, separator_of};
use crate::words::{boolean_in, constant_in, null_in, number_in, symbol_in, token_in};
use cl_eval::{Slots, Stop};
use cl_lattice::{Bound, TypeKind, UserType, next_spec, tokens_in};
use cl_syntax::{StandardType, TypeArg, TypeSpec};
use cl_value::{Held, Text, Value, Values};

/// What reads texts: a book, and the slots that accept methods see.
#[derive(Drop)]
pub(crate) struct Reader<'a, H> {
    pub(crate) book: &'a TypeBook<'a, H>,
    pub(crate) slots: &'a Slots,
}

/// What a part of a text is read as.
#[derive(Drop)]
enum Element<'a> {
    /// One of the constants among arguments.
    Constant(&'a [TypeArg]),
    /// A member of a type.
    Member(&'a TypeSpec),
}

impl<H: Hosts> Reader<'_, H> {
    /// What a text reads as by a type with the parameters of the declaration around put in.
    #[cycle(read)]
    pub(crate) fn read<'s>(
        &self,
        spec: &'s TypeSpec,
        bound: &Bound<'s>,
        text: &[u8],
    ) -> Result<Option<Value>, Stop>
        ensures { ReadsAs result (reading_by H.entries self.now (expanded self.now.book.now bound.now spec.now) spec.now text.now) }
    {
        let found = self.read_row(spec, bound, text)?;
        self.only_member(found, spec, bound)
    }

    // An object that is no member is nothing.
    fn only_member<'s>(
        &self,
        found: Option<Value>,
        spec: &'s TypeSpec,
        bound: &Bound<'s>,
    ) -> Result<Option<Value>, Stop>
        ensures { ReadsAs result (only_by H.entries self.now (expanded self.now.book.now bound.now spec.now) (object_if found)) }
    {
        let Some(value) = found else {
            return Ok(None);
        };
        match self.book.member_under(&value, spec, bound) {
            Held::Yes => Ok(Some(value)),
            Held::No => Ok(None),
            Held::Memory => Err(Stop::Memory),
        }
    }

    // The rows of the table of types.
    #[cycle(read)]
    fn read_row<'s>(
        &self,
        spec: &'s TypeSpec,
        bound: &Bound<'s>,
        text: &[u8],
    ) -> Result<Option<Value>, Stop>
        ensures { ReadsAs result (row_by H.entries self.now (expanded self.now.book.now bound.now spec.now) spec.now text.now) }
    {
        match spec.name().standard() {
            Some(standard) => self.read_standard(standard, spec, bound, text),
            None => self.read_declared(spec, bound, text),
        }
    }

    // The rows of the standard types.
    #[cycle(read)]
    fn read_standard<'s>(
        &self,
        standard: StandardType,
        spec: &'s TypeSpec,
        bound: &Bound<'s>,
        text: &[u8],
    ) -> Result<Option<Value>, Stop>
        ensures { (x : List ℕ) → ReadsAs result (row_by H.entries self.now (standard_in self.now.book.now standard x bound.now spec.now) spec.now text.now) }
    {
        let args = args_of(spec);
        match standard {
            StandardType::T => Ok(None),
            StandardType::Nil => Ok(None),
            StandardType::Boolean => Ok(boolean_in(text)),
            StandardType::Integer => Ok(number_in(text)),
            StandardType::String => Ok(Some(Value::Text(Text::from_slice(self.book.alloc, text)?))),
            StandardType::Symbol => Ok(symbol_in(self.book.alloc, text)?),
            StandardType::Member => Ok(constant_in(self.book.alloc, args, bound, text)?),
            StandardType::Subset => {
                self.read_each(&Element::Constant(args), bound, separator_of(spec), text)
            }
            StandardType::Sequence => self.read_sequence(spec, bound, text),
            StandardType::Or => self.read_some(args, bound, text),
            StandardType::And => self.read_first(args, bound, text),
            StandardType::NullOrType => self.read_beside(null_in(text), spec, bound, text),
            StandardType::TokenOrType => {
                let token = token_in(tokens_in(args), text)?;
                self.read_beside(token, spec, bound, text)
            }
            StandardType::BlankArea => Ok(None),
            StandardType::Command => Ok(None),
            StandardType::DialogChoice => Ok(None),
        }
    }

    // A list of members of the first part.
    #[cycle(read)]
    #[tactic(auto, using(crate::proofs::PartTypes::parts_of_spec))]
    fn read_sequence<'s>(
        &self,
        spec: &'s TypeSpec,
        bound: &Bound<'s>,
        text: &[u8],
    ) -> Result<Option<Value>, Stop>
        ensures { ReadsAs result (sequence_read H.entries self.now (parts_in self.now.book.now bound.now spec.now) spec.now text.now) }
    {
        match next_spec(args_of(spec)) {
            Some((inner, _)) => {
                self.read_each(&Element::Member(inner), bound, separator_of(spec), text)
            }
            None => Ok(None),
        }
    }

    // The list of what the parts of a text read as.
    #[cycle(read)]
    fn read_each<'s>(
        &self,
        element: &Element<'s>,
        bound: &Bound<'s>,
        separator: u8,
        text: &[u8],
    ) -> Result<Option<Value>, Stop>
        ensures { ReadsAs result (each_read (element_read H.entries self.now bound.now element.now) (pieces separator text.now) []) }
    {
        let mut values = Vec::new(self.book.alloc);
        let mut rest = if text.is_empty() { None } else { Some(text) };
        while let Some(bytes) = rest {
            let (piece, more) = split_piece(separator, bytes);
            match self.read_part(element, bound, piece)? {
                Some(value) => values.push(value)?,
                None => return Ok(None),
            }
            rest = more;
        }
        Ok(Some(Value::List(Values::from_vec(self.book.alloc, values)?)))
    }

    // What the part that a piece is reads as.
    #[cycle(read)]
    fn read_part<'s>(
        &self,
        element: &Element<'s>,
        bound: &Bound<'s>,
        piece: &[u8],
    ) -> Result<Option<Value>, Stop>
        ensures { ReadsAs result (part_read (element_read H.entries self.now bound.now element.now) (part_in piece.now)) }
    {
        let Some(part) = part_in(self.book.alloc, piece)? else {
            return Ok(None);
        };
        match element {
            Element::Constant(args) => {
                Ok(constant_in(self.book.alloc, args, bound, part.as_slice())?)
            }
            Element::Member(spec) => self.read(spec, bound, part.as_slice()),
        }
    }

    // By the first part that reads it, or that traps.
    #[cycle(read)]
    #[tactic(auto, using(crate::proofs::PartTypes::parts_next))]
    fn read_some<'s>(
        &self,
        args: &'s [TypeArg],
        bound: &Bound<'s>,
        text: &[u8],
    ) -> Result<Option<Value>, Stop>
        ensures { ReadsAs result (some_read H.entries self.now (parts_under self.now.book.now.lattice.now bound.now args.now) (trees_of args.now) text.now) }
    {
        match next_spec(args) {
            Some((spec, more)) => match self.read(spec, bound, text)? {
                Some(value) => Ok(Some(value)),
                None => self.read_some(more, bound, text),
            },
            None => Ok(None),
        }
    }

    // By the first part.
    #[cycle(read)]
    #[tactic(auto, using(crate::proofs::PartTypes::parts_next))]
    fn read_first<'s>(
        &self,
        args: &'s [TypeArg],
        bound: &Bound<'s>,
        text: &[u8],
    ) -> Result<Option<Value>, Stop>
        ensures { ReadsAs result (first_read H.entries self.now (parts_under self.now.book.now.lattice.now bound.now args.now) (trees_of args.now) text.now) }
    {
        match next_spec(args) {
            Some((spec, _)) => self.read(spec, bound, text),
            None => Ok(None),
        }
    }

    // What is read beside the first part, else by that part.
    #[cycle(read)]
    #[tactic(auto, using(crate::proofs::PartTypes::parts_of_spec))]
    fn read_beside<'s>(
        &self,
        beside: Option<Value>,
        spec: &'s TypeSpec,
        bound: &Bound<'s>,
        text: &[u8],
    ) -> Result<Option<Value>, Stop>
        ensures { ReadsAs result (beside_read H.entries self.now (option_map data_of beside) (parts_in self.now.book.now bound.now spec.now) spec.now text.now) }
    {
        match next_spec(args_of(spec)) {
            Some((inner, _)) => match beside {
                Some(value) => Ok(Some(value)),
                None => self.read(inner, bound, text),
            },
            None => Ok(None),
        }
    }

    // Records, host types and user types.
    #[cycle(read)]
    fn read_declared<'s>(
        &self,
        spec: &'s TypeSpec,
        bound: &Bound<'s>,
        text: &[u8],
    ) -> Result<Option<Value>, Stop>
        requires { standard_named (name_of spec.now) ≡ None }
        ensures { ReadsAs result (row_by H.entries self.now (declared_in self.now.book.now bound.now spec.now) spec.now text.now) }
    {
        self.book.lattice.all_fit();
        let name = spec.name().as_slice();
        match self.book.lattice.kind(name) {
            Some(kind) => match kind {
                TypeKind::Record => self.read_record(name, text),
                TypeKind::Host(_, _) => Ok(host_value(self.book.hosts, name, text)),
                TypeKind::User(user) => self.read_user(user, spec, bound, text),
            },
            None => Ok(None),
        }
    }

    // By the method of the record type, else nothing.
    fn read_record(&self, name: &[u8], text: &[u8]) -> Result<Option<Value>, Stop>
        ensures { ReadsAs result (record_read H.entries self.now name.now text.now) }
    {
        match self.book.app.accept_method(name) {
            Some(method) => accepted(self.book.alloc, self.book.app, self.slots, method, text),
            None => Ok(None),
        }
    }

    // By the method of the user type, else by what it inherits from.
    #[cycle(read)]
    fn read_user<'s>(
        &self,
        user: &UserType,
        spec: &'s TypeSpec,
        bound: &Bound<'s>,
        text: &[u8],
    ) -> Result<Option<Value>, Stop>
        requires { kind_named (name_of spec.now) self.now.book.now.lattice.now ≡ Some (kind.User user.now) }
        ensures { ReadsAs result (user_read H.entries self.now (name_of spec.now) (inherited_by self.now.book.now bound.now spec.now user.now) user.now.inherit_from text.now) }
    {
        match self.book.app.accept_method(spec.name().as_slice()) {
            Some(method) => accepted(self.book.alloc, self.book.app, self.slots, method, text),
            None => {
                let args = args_of(spec);
                let inner = Bound::Given(&user.parameters, &*args, &*bound);
                self.read(&user.inherit_from, &inner, text)
            }
        }
    }
}
