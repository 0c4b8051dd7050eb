//! What the outermost forms of a text declare, whether they are right or not.
ghost use Rattle.std.specs.Prelude.{◌≡◌, ◌∷◌, [], IfOk, OnOk, map, option_map};
ghost use Rattle.cl_forms.specs.DatumView.{datum_of};
ghost use Rattle.cl_forms.specs.OuterView.{outer_of};
ghost use Rattle.cl_words.specs.Arguments.{arguments_behind};
ghost use Rattle.cl_words.specs.Signatures.{parameters_counted, part_name, with_callee, with_type, with_slot, with_slots, with_pane, with_panes, with_sections, with_table, with_command, with_dialog, with_declaration, with_outer, with_outers, signatures_of, nothing_declared};

use crate::arguments::arguments_behind;
use crate::heads::is_operator;
use crate::signatures::{
    Callee, CalleeKind, CommandHead, DialogHead, PaneHead, Signatures, SlotHead, TableHead,
    TypeHead, TypeKind, is_global_table,
};
use crate::type_names::is_standard_type;
use cl_forms::{
    Datum, DeclarationKind, Key, Outer, OuterKind, list_counted, name_in, names_counted,
    section_values,
};
use cl_table::{Names, Table};
use cl_value::Text;
use std::alloc::{AllocError, Global};

/// What the outermost forms declare.
pub fn signatures_of(alloc: Global, outers: &[Outer<'_>]) -> Result<Signatures, AllocError>
    ensures { IfOk result (λ w. w ≡ signatures_of (map outer_of outers.now)) }
{
    let mut signatures = Signatures {
        callees: Table::new(alloc),
        types: Table::new(alloc),
        slots: Table::new(alloc),
        panes: Table::new(alloc),
        tables: Table::new(alloc),
        commands: Table::new(alloc),
        dialogs: Table::new(alloc),
    };
    for outer in outers {
        add_outer(alloc, &mut signatures, outer)?;
    }
    Ok(signatures)
}

fn add_outer(
    alloc: Global,
    signatures: &mut Signatures,
    outer: &Outer<'_>,
) -> Result<(), AllocError>
    ensures { OnOk result (signatures.new ≡ with_outer signatures.old (outer_of outer.now)) }
{
    match outer.kind {
        OuterKind::Declared(kind) => add_declaration(alloc, signatures, kind, outer),
        OuterKind::Planned(_) => Ok(()),
        OuterKind::Unknown(_) => Ok(()),
        OuterKind::Headless => Ok(()),
    }
}

fn add_declaration(
    alloc: Global,
    signatures: &mut Signatures,
    kind: DeclarationKind,
    outer: &Outer<'_>,
) -> Result<(), AllocError>
    ensures { OnOk result (signatures.new ≡ with_declaration signatures.old kind (outer_of outer.now)) }
{
    let name = outer.declared_name();
    let more = outer.behind_name();
    match kind {
        DeclarationKind::Record => {
            add_type(signatures, TypeKind::Record, name, names_counted(more))
        }
        DeclarationKind::PresentationType => {
            add_type(signatures, TypeKind::User, name, parameters_counted(more))
        }
        DeclarationKind::HostType => add_type(signatures, TypeKind::Host, name, None),
        DeclarationKind::PresentMethod => Ok(()),
        DeclarationKind::AcceptMethod => Ok(()),
        DeclarationKind::Function => add_callee(
            signatures,
            CalleeKind::Function,
            name,
            parameters_counted(more),
        ),
        DeclarationKind::Display => add_callee(
            signatures,
            CalleeKind::Display,
            name,
            parameters_counted(more),
        ),
        DeclarationKind::CommandTable => add_table(signatures, name),
        DeclarationKind::Command => {
            add_command(signatures, name, arguments_behind(alloc, more)?)
        }
        DeclarationKind::Translator => Ok(()),
        DeclarationKind::CommandTranslator => Ok(()),
        DeclarationKind::Dialog => add_dialog(signatures, name),
        DeclarationKind::Frame => add_sections(signatures, more),
    }
}

fn add_type(
    signatures: &mut Signatures,
    kind: TypeKind,
    name: Option<&Text>,
    count: Option<usize>,
) -> Result<(), AllocError>
    ensures { OnOk result
        (signatures.new ≡ with_type signatures.old kind (option_map (λ n. n.now) name.entry) count) }
{
    let Some(name) = name else {
        return Ok(());
    };
    if is_standard_type(name.as_slice()) {
        return Ok(());
    }
    let name = name.copy()?;
    signatures.types.add_first(TypeHead { name, kind, count })
}

fn add_callee(
    signatures: &mut Signatures,
    kind: CalleeKind,
    name: Option<&Text>,
    count: Option<usize>,
) -> Result<(), AllocError>
    ensures { OnOk result
        (signatures.new ≡ with_callee signatures.old kind (option_map (λ n. n.now) name.entry) count) }
{
    let Some(name) = name else {
        return Ok(());
    };
    if is_operator(name.as_slice()) {
        return Ok(());
    }
    let name = name.copy()?;
    signatures.callees.add_first(Callee { name, kind, count })
}

fn add_table(signatures: &mut Signatures, name: Option<&Text>) -> Result<(), AllocError>
    ensures { OnOk result
        (signatures.new ≡ with_table signatures.old (option_map (λ n. n.now) name.entry)) }
{
    let Some(name) = name else {
        return Ok(());
    };
    if is_global_table(name.as_slice()) {
        return Ok(());
    }
    let name = name.copy()?;
    signatures.tables.add_first(TableHead { name })
}

fn add_command(
    signatures: &mut Signatures,
    name: Option<&Text>,
    arguments: Option<Names>,
) -> Result<(), AllocError>
    ensures { OnOk result
        (signatures.new ≡ with_command signatures.old (option_map (λ n. n.now) name.entry) arguments) }
{
    let Some(name) = name else {
        return Ok(());
    };
    let name = name.copy()?;
    signatures
        .commands
        .add_first(CommandHead { name, arguments })
}

fn add_dialog(signatures: &mut Signatures, name: Option<&Text>) -> Result<(), AllocError>
    ensures { OnOk result
        (signatures.new ≡ with_dialog signatures.old (option_map (λ n. n.now) name.entry)) }
{
    let Some(name) = name else {
        return Ok(());
    };
    let name = name.copy()?;
    signatures.dialogs.add_first(DialogHead { name })
}

/// The name that begins a part of a section.
fn part_name(parts: &[Datum]) -> Option<&Text>
    ensures { option_map (λ n. n.now) result ≡ part_name (map datum_of parts.now) }
{
    match parts {
        [] => None,
        [name, ..] => name_in(name),
    }
}

fn add_slot(signatures: &mut Signatures, name: Option<&Text>) -> Result<(), AllocError>
    ensures { OnOk result
        (signatures.new ≡ with_slot signatures.old (option_map (λ n. n.now) name.entry)) }
{
    let Some(name) = name else {
        return Ok(());
    };
    let name = name.copy()?;
    signatures.slots.add_first(SlotHead { name })
}

fn add_slots(signatures: &mut Signatures, slots: &[Datum]) -> Result<(), AllocError>
    ensures { OnOk result (signatures.new ≡ with_slots signatures.old (map datum_of slots.now)) }
{
    for slot in slots {
        add_slot(signatures, part_name(slot.parts()))?;
    }
    Ok(())
}

fn add_pane(signatures: &mut Signatures, name: Option<&Text>) -> Result<(), AllocError>
    ensures { OnOk result
        (signatures.new ≡ with_pane signatures.old (option_map (λ n. n.now) name.entry)) }
{
    let Some(name) = name else {
        return Ok(());
    };
    let name = name.copy()?;
    signatures.panes.add_first(PaneHead { name })
}

fn add_panes(signatures: &mut Signatures, panes: &[Datum]) -> Result<(), AllocError>
    ensures { OnOk result (signatures.new ≡ with_panes signatures.old (map datum_of panes.now)) }
{
    for pane in panes {
        add_pane(signatures, part_name(pane.parts()))?;
    }
    Ok(())
}

fn add_sections(signatures: &mut Signatures, sections: &[Datum]) -> Result<(), AllocError>
    ensures { OnOk result (signatures.new ≡ with_sections signatures.old (map datum_of sections.now)) }
{
    for section in sections {
        add_slots(signatures, section_values(Key::Slots, section))?;
        add_panes(signatures, section_values(Key::Panes, section))?;
    }
    Ok(())
}

fn parameters_counted(parts: &[Datum]) -> Option<usize>
    ensures { result ≡ parameters_counted (map datum_of parts.now) }
{
    match parts {
        [] => None,
        [parameters, ..] => list_counted(parameters),
    }
}
