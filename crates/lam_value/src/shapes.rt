//! Shapes of new objects and arrays, with their first contents.

ghost use Rattle.std.specs.Prelude.{◌≡◌, IfOk};
ghost use Rattle.lam_value.specs.Shapes.{zero_of, slots_of};

use crate::values::{Value, Values};
use lam_value_homes::NoMemory;
use std::alloc::Global;

/// What the elements of an array are.
#[derive(Clone, Copy, Debug, PartialEq, Eq)]
pub enum Kind {
    /// Whole numbers; 0 at first.
    Int,
    /// Truth values; false at first.
    Bool,
    /// References, or anything else that may be null; null at first.
    Null,
}

/// The shape of a new thing.
#[derive(Drop)]
pub enum Shape {
    /// An object of a class, named by the class's number, with its fields.
    Class { class: u32, fields: Values },
    /// An array of so many elements, each the first value of its kind.
    Array { kind: Kind, len: u64 },
}

impl Kind {
    /// The first value of each element.
    pub fn zero(self) -> Value
        ensures { result ≡ zero_of self }
    {
        match self {
            Kind::Int => Value::Int(0),
            Kind::Bool => Value::Bool(false),
            Kind::Null => Value::Nothing,
        }
    }
}

impl Shape {
    /// An equal shape.
    ///
    /// # Errors
    ///
    /// `NoMemory` where memory is refused.
    pub fn copy(&self) -> Result<Shape, NoMemory>
        ensures { IfOk result (λ s. s ≡ self.now) }
    {
        match self {
            Shape::Class { class, fields } => {
                let fields = fields.copy()?;
                Ok(Shape::Class {
                    class: *class,
                    fields,
                })
            }
            Shape::Array { kind, len } => Ok(Shape::Array {
                kind: *kind,
                len: *len,
            }),
        }
    }

    /// The slots of a thing of this shape: an object's fields, or an array's elements.
    ///
    /// # Errors
    ///
    /// `NoMemory` where memory is refused.
    pub fn into_slots(self, alloc: Global) -> Result<Values, NoMemory>
        ensures { IfOk result (λ vs. vs ≡ slots_of self) }
    {
        match self {
            Shape::Class { class: _, fields } => Ok(fields),
            Shape::Array { kind, len } => zeros(alloc, kind, len),
        }
    }
}

/// So many first values of a kind.
fn zeros(alloc: Global, kind: Kind, len: u64) -> Result<Values, NoMemory>
    ensures { IfOk result (λ vs. vs ≡ slots_of (Shape.Array kind len)) }
{
    let mut slots = Vec::with_capacity(alloc, len as usize)?;
    for _ in 0..len {
        slots.push_reserved(kind.zero());
    }
    Ok(Values::from_vec(slots))
}
