//! What is read of the forms of a text.
ghost use Rattle.std.specs.Prelude.{◌≡◌, ◌++◌, ◌∷◌, [], OnOk, OnErr, IfErr, map};
ghost use Rattle.cl_forms.specs.DatumView.{datum_of};
ghost use Rattle.cl_forms.specs.Datum.{offset, parts_of};

use cl_value::Text;
use std::alloc::{AllocFailed, Global};
use std::marker::Model;

/// An atom or a list, with its offset in bytes.
#[cycle(datum)]
#[derive(Drop)]
pub enum Datum {
    Number(i64, u32),
    /// A text, without its quotes and each `\`.
    Literal(Text, u32),
    /// A symbol in small letters.
    Word(Text, u32),
    /// A name behind a quote, with the offsets of both.
    Quoted(Text, u32, u32),
    /// A quote that stands before no name, with what follows it.
    Stray(u32),
    List(Datums, u32),
}

/// Data in a row, which contracts see as their list.
#[cycle(datum)]
#[derive(Drop)]
pub struct Datums {
    items: Vec<Datum>,
}

impl Model for Datums {
    ghost use Rattle.std.specs.Prelude.{List, map};
    ghost use Rattle.std.specs.Coded.{coded_list};
    ghost use Rattle.cl_forms.specs.Datum.{Datum, datum_code, datums_of, weights};

    ghost Value = { List Datum };

    ghost coded = { coded_list datum_code };

    ghost use Rattle.cl_forms.specs.DatumView.{datum_of};

    ghost view = { λ a. map datum_of a.items.items };

    ghost size = { λ ds. weights (datums_of ds) };

    ghost use Rattle.cl_forms.specs.DatumFalls.{data-weight};

    ghost size_decreases = { λ a h. data-weight a };
}

impl Datums {
    /// No data, which takes no memory.
    pub fn new(alloc: Global) -> Datums
        ensures { result ≡ [] }
    {
        Datums {
            items: Vec::new(alloc),
        }
    }

    pub fn as_slice(&self) -> &[Datum]
        ensures { map datum_of result.now ≡ self.now }
    {
        self.items.as_slice()
    }

    /// Puts a datum behind the others. Where memory is wanting, it hands it back.
    pub fn push(&mut self, datum: Datum) -> Result<(), AllocFailed<Datum>>
        ensures ok { OnOk result (self.new ≡ self.old ++ datum_of datum ∷ []) }
        ensures err { OnErr result (self.new ≡ self.old) }
        ensures handed_back { IfErr result (λ e. datum_of e.value ≡ datum_of datum) }
    {
        self.items.push(datum)
    }
}

impl Datum {
    /// Its offset in bytes.
    pub fn offset(&self) -> u32
        ensures { result ≡ offset (datum_of self.now) }
    {
        match self {
            Datum::Number(_, at) => *at,
            Datum::Literal(_, at) => *at,
            Datum::Word(_, at) => *at,
            Datum::Quoted(_, at, _) => *at,
            Datum::Stray(at) => *at,
            Datum::List(_, at) => *at,
        }
    }

    /// The parts of a list; an atom has none.
    #[tactic(auto, using(crate::proofs::Data::data_in_order))]
    pub fn parts(&self) -> &[Datum]
        ensures { map datum_of result.now ≡ parts_of (datum_of self.now) }
    {
        match self {
            Datum::List(parts, _) => parts.as_slice(),
            Datum::Number(_, _) => &[],
            Datum::Literal(_, _) => &[],
            Datum::Word(_, _) => &[],
            Datum::Quoted(_, _, _) => &[],
            Datum::Stray(_) => &[],
        }
    }
}
