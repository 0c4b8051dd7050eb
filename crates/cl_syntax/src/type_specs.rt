//! Specifiers of presentation types, after the CLIM II specification's chapter on presentation types.
ghost use Rattle.std.specs.Prelude.{◌≡◌, [], IfOk, None, map};
ghost use Rattle.cl_syntax.specs.TypeSpec.{arg_tree_of};
ghost use Rattle.cl_syntax.specs.TypeSpecTree.{specifier, arg_trees_of, name_of, no_options, plain_type};

use crate::type_names::TypeName;
use cl_table::Names;
use cl_value::{Text, Value};
use std::alloc::{AllocError, Global};
use std::marker::Model;
use std::rc::Rc;

/// A specifier, which contracts see as its tree, a `TypeSpecTree`: `NAME`, `(NAME ARGUMENT ...)` or
/// `((NAME ARGUMENT ...) OPTION ...)`. A copy shares its arguments.
#[cycle(type_spec)]
#[derive(Drop)]
pub struct TypeSpec {
    pub name: TypeName,
    pub args: TypeArgs,
    pub options: TypeOptions,
}

/// An argument of a specifier.
#[cycle(type_spec)]
#[derive(Drop)]
pub enum TypeArg {
    /// A number, a text, `true`, `false`, `null` or a symbol.
    Constant(Value),
    /// A written `*`: no bound.
    Any,
    /// A parameter of the declaration in which the specifier stands.
    Param(Text),
    /// A specifier, of which the type is made.
    Spec(TypeSpec),
    /// The tokens of a `token-or-type`.
    Names(Names),
}

/// Arguments in order, seen as the list of their trees. A copy shares them.
#[cycle(type_spec)]
#[derive(Drop)]
pub struct TypeArgs {
    /// `None` for no arguments, which takes no memory.
    row: Option<Rc<Vec<TypeArg>>>,
}

/// Specifiers in order, as the types of the arguments of a command, seen as the list of their trees. A copy shares them.
#[derive(Drop)]
pub struct TypeSpecs {
    /// `None` for no specifiers, which takes no memory.
    row: Option<Rc<Vec<TypeSpec>>>,
}

/// The options of a specifier, which have no part in membership and in subtypes: how the type is called,
/// and the byte between the parts of its texts.
#[derive(Drop)]
pub struct TypeOptions {
    pub description: Option<Text>,
    pub separator: Option<u8>,
}

impl Model for TypeSpec {
    ghost use Rattle.cl_syntax.specs.TypeSpecTree.{TypeSpecTree, specifier, arg_trees_of, nodes};
    ghost use Rattle.cl_syntax.specs.TypeSpecTreeCode.{coded_type_spec_tree};

    ghost Value = { TypeSpecTree };

    ghost coded = { coded_type_spec_tree };

    ghost view = { λ s. specifier s.name (arg_trees_of s.args) s.options };

    ghost size = { nodes };

    ghost use Rattle.std.proofs.Common.{arith};

    ghost size_decreases = { λ s h. Prim.omega (arith) };
}

impl Model for TypeArgs {
    ghost use Rattle.std.specs.Prelude.{List};
    ghost use Rattle.std.specs.Coded.{coded_list};
    ghost use Rattle.cl_syntax.specs.TypeSpecTree.{TypeArgTree, arg_trees_of, nodes_all};
    ghost use Rattle.cl_syntax.specs.TypeSpecTreeCode.{coded_type_arg_tree};

    ghost Value = { List TypeArgTree };

    ghost coded = { coded_list coded_type_arg_tree };

    ghost use Rattle.cl_syntax.specs.TypeSpec.{shared_args};

    ghost view = { λ a. shared_args a.row };

    ghost size = { λ ts. nodes_all (arg_trees_of ts) };

    ghost use Rattle.cl_syntax.specs.TypeSpecFalls.{shared-nodes};

    ghost size_decreases = { λ a h. shared-nodes a.row };
}

impl Model for TypeSpecs {
    ghost use Rattle.std.specs.Prelude.{List};
    ghost use Rattle.std.specs.Coded.{coded_list};
    ghost use Rattle.cl_syntax.specs.TypeSpecTree.{TypeSpecTree};
    ghost use Rattle.cl_syntax.specs.TypeSpecTreeCode.{coded_type_spec_tree};

    ghost Value = { List TypeSpecTree };

    ghost coded = { coded_list coded_type_spec_tree };

    ghost use Rattle.cl_syntax.specs.TypeSpec.{shared_specs};

    ghost view = { λ s. shared_specs s.row };
}

impl TypeOptions {
    /// No option, which takes no memory.
    pub fn none() -> TypeOptions
        ensures { result ≡ no_options }
    {
        TypeOptions {
            description: None,
            separator: None,
        }
    }

    /// The same options, which takes no memory: it fails only where one text has as many owners as can be counted.
    pub fn copy(&self) -> Result<TypeOptions, AllocError>
        ensures { IfOk result (λ o. o ≡ self.now) }
    {
        let description = match &self.description {
            Some(text) => Some(text.copy()?),
            None => None,
        };
        Ok(TypeOptions {
            description,
            separator: self.separator,
        })
    }
}

impl TypeArgs {
    /// No arguments, which takes no memory.
    pub fn new() -> TypeArgs
        ensures { result ≡ [] }
    {
        TypeArgs { row: None }
    }

    /// These arguments, which are not copied.
    pub fn from_vec(alloc: Global, args: Vec<TypeArg>) -> Result<TypeArgs, AllocError>
        ensures { IfOk result (λ a. a ≡ map arg_tree_of args.items) }
    {
        if args.is_empty() {
            return Ok(TypeArgs::new());
        }
        Ok(TypeArgs {
            row: Some(Rc::new(alloc, args)?),
        })
    }

    /// The arguments in their order.
    pub fn as_slice(&self) -> &[TypeArg]
        ensures { map arg_tree_of result.now ≡ self.now }
    {
        match &self.row {
            Some(row) => row.as_slice(),
            None => &[],
        }
    }

    /// The same arguments, which takes no memory: it fails only where one list has as many owners as can be counted.
    pub fn copy(&self) -> Result<TypeArgs, AllocError>
        ensures { IfOk result (λ a. a ≡ self.now) }
    {
        let row = match &self.row {
            Some(row) => Some(row.clone()?),
            None => None,
        };
        Ok(TypeArgs { row })
    }
}

impl TypeSpecs {
    /// No specifiers, which takes no memory.
    pub fn new() -> TypeSpecs
        ensures { result ≡ [] }
    {
        TypeSpecs { row: None }
    }

    /// These specifiers, which are not copied.
    pub fn from_vec(alloc: Global, specs: Vec<TypeSpec>) -> Result<TypeSpecs, AllocError>
        ensures { IfOk result (λ s. s ≡ specs.items) }
    {
        if specs.is_empty() {
            return Ok(TypeSpecs::new());
        }
        Ok(TypeSpecs {
            row: Some(Rc::new(alloc, specs)?),
        })
    }

    /// The specifiers in their order.
    pub fn as_slice(&self) -> &[TypeSpec]
        ensures { result.now ≡ self.now }
    {
        match &self.row {
            Some(row) => row.as_slice(),
            None => &[],
        }
    }

    /// The same specifiers, which takes no memory: it fails only where one list has as many owners as can be counted.
    pub fn copy(&self) -> Result<TypeSpecs, AllocError>
        ensures { IfOk result (λ s. s ≡ self.now) }
    {
        let row = match &self.row {
            Some(row) => Some(row.clone()?),
            None => None,
        };
        Ok(TypeSpecs { row })
    }
}

impl TypeSpec {
    /// The specifier of these parts.
    pub fn new(name: Text, args: TypeArgs, options: TypeOptions) -> TypeSpec
        ensures { result ≡ specifier name (arg_trees_of args) options }
    {
        TypeSpec {
            name: TypeName::new(name),
            args,
            options,
        }
    }

    /// The name of the type.
    pub fn name(&self) -> &TypeName
        ensures { result.now ≡ name_of self.now }
    {
        &self.name
    }

    /// The specifier of a name alone, which takes no memory.
    pub fn plain(name: Text) -> TypeSpec
        ensures { result ≡ plain_type name }
    {
        TypeSpec::new(name, TypeArgs::new(), TypeOptions::none())
    }

    /// The same specifier, which takes no memory: it fails only where one part has as many owners as can be counted.
    pub fn copy(&self) -> Result<TypeSpec, AllocError>
        ensures { IfOk result (λ s. s ≡ self.now) }
    {
        Ok(TypeSpec {
            name: self.name.copy()?,
            args: self.args.copy()?,
            options: self.options.copy()?,
        })
    }
}
