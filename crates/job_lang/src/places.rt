//! Where a field stands, and its path as a text.
ghost use Rattle.std.specs.Prelude.{◌≡◌, IfOk, string_bytes};
ghost use Rattle.job_lang.specs.declared.places.Place.TheVariants.{Instance};
ghost use Rattle.job_lang.specs.Places.{prefix as prefix_of, path};

use job_words::Utf8Text;
use std::alloc::{AllocError, Global};

/// The object whose members are read.
#[derive(Clone, Copy, PartialEq, Eq)]
pub enum Place {
    /// The job itself.
    Top,
    /// The step with this number.
    Step(usize),
    /// The node with this number.
    Node(usize),
    /// The instance with this number of a node.
    Instance { node: usize, instance: usize },
    /// The first of two parts of a sequent.
    First,
    /// The second of them.
    Second,
}

/// What stands in a path before the names of an instance's members.
fn instance_prefix(alloc: Global, node: usize, instance: usize) -> Result<String, AllocError>
    ensures { IfOk result (λ text. string_bytes text ≡ prefix_of (Instance node instance)) }
{
    let text = format!(in alloc; "nodes/{node}/instances/{instance}/")?;
    Ok(text)
}

/// What stands in a path before the names of the object's members.
fn prefix(alloc: Global, place: Place) -> Result<String, AllocError>
    ensures { IfOk result (λ text. string_bytes text ≡ prefix_of place) }
{
    match place {
        Place::Top => Ok(String::new(alloc)),
        Place::Step(step) => format!(in alloc; "steps/{step}/"),
        Place::Node(node) => format!(in alloc; "nodes/{node}/"),
        Place::Instance { node, instance } => instance_prefix(alloc, node, instance),
        Place::First => String::from_str(alloc, "first/"),
        Place::Second => String::from_str(alloc, "second/"),
    }
}

/// The path of the member with this key, or of the element of it with this place: names and places from 0, joined by `/`.
pub fn field_path(
    alloc: Global,
    place: Place,
    key: &str,
    index: Option<usize>,
) -> Result<Utf8Text, AllocError>
    ensures { IfOk result (λ p. p ≡ path place key.now index) }
{
    let object = prefix(alloc, place)?;
    let object = object.as_str();
    let text = match index {
        None => format!(in alloc; "{object}{key}")?,
        Some(index) => format!(in alloc; "{object}{key}/{index}")?,
    };
    Ok(Utf8Text::from_string(text))
}
