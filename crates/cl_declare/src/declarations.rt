//! What a text declares, as it is read.
ghost use Rattle.std.specs.Prelude.{◌≡◌, map};
ghost use Rattle.cl_forms.specs.DatumView.{datum_of};
ghost use Rattle.cl_forms.specs.OuterView.{outer_of};
ghost use Rattle.cl_expressions.specs.Load.{Gives, itself};
ghost use Rattle.cl_declare.specs.Declarations.{parse_declared, parse_kind, parse_declaration, parse_declarations};
ghost use Rattle.cl_expressions.specs.Leaves.{Leaves};

use crate::callees::{parse_display, parse_function, parse_record};
use crate::command_tables::parse_table;
use crate::commands::parse_command;
use crate::dialogs::parse_dialog;
use crate::in_order::FrameForms;
use crate::methods::parse_method;
use crate::sections::parse_frame;
use crate::translator_shapes::TranslatorKind;
use crate::translators::parse_translator;
use crate::types::{parse_host_type, parse_user_type};
use cl_application::{
    Commands, DialogDecls, Displays, Functions, HostDecls, Methods, TableDecls, TranslatorDecls,
};
use cl_expressions::{Notes, Reader};
use cl_forms::{Datum, DeclarationKind, FormRefusal, Outer, OuterKind};
use cl_syntax::{Records, UserTypes};

/// What a text declares: tables by name, of two of one name the first, and all frames in their order.
#[derive(Drop)]
pub struct Declarations {
    pub records: Records,
    pub types: UserTypes,
    pub hosts: HostDecls,
    pub present_methods: Methods,
    pub accept_methods: Methods,
    pub functions: Functions,
    pub displays: Displays,
    pub tables: TableDecls,
    pub commands: Commands,
    pub translators: TranslatorDecls,
    pub dialogs: DialogDecls,
    pub frames: FrameForms,
}

/// What the outermost forms of a text declare; or the first of its refusals 0, 5 and 6. The first name
/// that is not declared is noted.
pub fn parse_declarations(
    reader: &Reader,
    outers: &[Outer],
    notes: &mut Notes,
) -> Result<Declarations, FormRefusal>
    ensures { Gives itself result notes.new
        (parse_declarations reader.now.signatures.now (map outer_of outers.now) notes.old) }
{
    let mut declarations = Declarations {
        records: Records::new(reader.alloc),
        types: UserTypes::new(reader.alloc),
        hosts: HostDecls::new(reader.alloc),
        present_methods: Methods::new(reader.alloc),
        accept_methods: Methods::new(reader.alloc),
        functions: Functions::new(reader.alloc),
        displays: Displays::new(reader.alloc),
        tables: TableDecls::new(reader.alloc),
        commands: Commands::new(reader.alloc),
        translators: TranslatorDecls::new(reader.alloc),
        dialogs: DialogDecls::new(reader.alloc),
        frames: FrameForms::new(reader.alloc),
    };
    for outer in outers {
        parse_declaration(reader, outer, &mut declarations, notes)?;
    }
    Ok(declarations)
}

fn parse_declaration(
    reader: &Reader,
    outer: &Outer,
    declarations: &mut Declarations,
    notes: &mut Notes,
) -> Result<(), FormRefusal>
    ensures { Leaves result declarations.new notes.new
        (parse_declaration reader.now.signatures.now (outer_of outer.now) declarations.old
        notes.old) }
{
    match outer.kind {
        OuterKind::Declared(kind) => {
            parse_declared(reader, kind, outer.at, outer.parts, declarations, notes)
        }
        OuterKind::Planned(head_at) => Err(FormRefusal::Refused(0, head_at)),
        OuterKind::Unknown(head_at) => Err(FormRefusal::Refused(5, head_at)),
        OuterKind::Headless => Err(FormRefusal::Refused(6, outer.at)),
    }
}

fn parse_declared(
    reader: &Reader,
    kind: DeclarationKind,
    at: u32,
    parts: &[Datum],
    declarations: &mut Declarations,
    notes: &mut Notes,
) -> Result<(), FormRefusal>
    ensures { Leaves result declarations.new notes.new
        (parse_declared reader.now.signatures.now kind at (map datum_of parts.now) declarations.old
        notes.old) }
{
    match kind {
        DeclarationKind::Record => {
            let record = parse_record(reader.alloc, at, parts)?;
            declarations.records.add_first(record)?
        }
        DeclarationKind::PresentationType => {
            let user_type = parse_user_type(reader, at, parts, notes)?;
            declarations.types.add_first(user_type)?
        }
        DeclarationKind::HostType => {
            let host_type = parse_host_type(reader.alloc, at, parts)?;
            declarations.hosts.add_first(host_type)?
        }
        DeclarationKind::PresentMethod => {
            let method = parse_method(reader, at, parts, notes)?;
            declarations.present_methods.add_first(method)?
        }
        DeclarationKind::AcceptMethod => {
            let method = parse_method(reader, at, parts, notes)?;
            declarations.accept_methods.add_first(method)?
        }
        DeclarationKind::Function => {
            let function = parse_function(reader, at, parts, notes)?;
            declarations.functions.add_first(function)?
        }
        DeclarationKind::Display => {
            let display = parse_display(reader, at, parts, notes)?;
            declarations.displays.add_first(display)?
        }
        DeclarationKind::CommandTable => {
            let table = parse_table(reader, at, parts, notes)?;
            declarations.tables.add_first(table)?
        }
        DeclarationKind::Command => {
            let command = parse_command(reader, at, parts, notes)?;
            declarations.commands.add_first(command)?
        }
        DeclarationKind::Translator => {
            let translator = parse_translator(reader, TranslatorKind::Object, at, parts, notes)?;
            declarations.translators.add_first(translator)?
        }
        DeclarationKind::CommandTranslator => {
            let translator = parse_translator(reader, TranslatorKind::Command, at, parts, notes)?;
            declarations.translators.add_first(translator)?
        }
        DeclarationKind::Dialog => {
            let dialog = parse_dialog(reader, at, parts, notes)?;
            declarations.dialogs.add_first(dialog)?
        }
        DeclarationKind::Frame => {
            let frame = parse_frame(reader, at, parts, notes)?;
            declarations.frames.push(frame)?
        }
    }
    Ok(())
}
