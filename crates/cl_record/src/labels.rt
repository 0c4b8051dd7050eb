//! What a presentation says of itself.
ghost use Rattle.std.specs.Prelude.{◌≡◌};
ghost use Rattle.cl_value.specs.Value.{data_of};

use cl_syntax::TypeSpec;
use cl_value::Value;
use std::marker::Model;
use std::rc::Rc;

/// What is presented, the specifier of its type, which copies share, and whether the presentation is sensitive all over its box
/// and not only where its items are.
#[derive(Drop)]
pub struct Label {
    object: Value,
    spec: Rc<TypeSpec>,
    single_box: bool,
}

impl Model for Label {
    ghost use Rattle.cl_value.specs.Value.{data_of};
    ghost use Rattle.cl_record.specs.Labels.{LabelAt, label_code};

    ghost Value = { LabelAt };

    ghost coded = { label_code };

    ghost view = { λ l. record
        { object = data_of l.object; spec = l.spec.value; single_box = l.single_box } };
}

impl Label {
    /// The label of these parts.
    pub fn new(object: Value, spec: Rc<TypeSpec>, single_box: bool) -> Label
        ensures { result
            ≡ record { object = data_of object; spec = spec.value; single_box = single_box } }
    {
        Label {
            object,
            spec,
            single_box,
        }
    }

    /// What is presented.
    pub fn object(&self) -> &Value
        ensures { data_of result.now ≡ self.now.object }
    {
        &self.object
    }

    /// The specifier of its type.
    pub fn spec(&self) -> &Rc<TypeSpec>
        ensures { result.now.value ≡ self.now.spec }
    {
        &self.spec
    }

    /// Whether it is sensitive all over its box.
    pub fn is_single_box(&self) -> bool
        ensures { result ≡ self.now.single_box }
    {
        self.single_box
    }
}
