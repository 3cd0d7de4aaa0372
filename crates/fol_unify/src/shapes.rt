//! What is to be done with two numbered terms, or lists of terms, that have to become equal.
ghost use Rattle.std.specs.Prelude.{◌≡◌, ◌≢◌, ◌<◌, length};
ghost use Rattle.arena_cells.specs.Standing.{item_at};
ghost use Rattle.fol_unify.specs.Solving.{kind_of, other as another};
ghost use Rattle.fol_unify.specs.Shapes.{IsShape, IsDecision};

use arena_cells::{Cells, Key};

/// The root of a term or of a list of terms, with the numbers of its parts.
#[derive(Clone, Copy)]
pub(crate) enum Shape {
    /// A free variable.
    Variable,
    /// The variable of a quantifier around.
    Index,
    /// A symbol and a list of terms.
    Application(u32, u32),
    /// The list of no term.
    Empty,
    /// A term and a list of terms.
    Front(u32, u32),
}

/// What makes two numbers equal.
#[derive(Clone, Copy)]
pub(crate) enum Decision {
    /// No map does.
    Clash,
    /// The first is a variable, which becomes the other.
    FirstUnder,
    /// The other is a variable, which becomes the first.
    OtherUnder,
    /// Either may stand for both.
    Level,
    /// Either may stand for both, where two further numbers become equal.
    LevelOne((u32, u32)),
    /// Either may stand for both, where two and two further numbers become equal.
    LevelTwo((u32, u32), (u32, u32)),
}

/// The shape of what stands at the number.
pub(crate) fn shape_of(cells: &Cells, number: u32) -> Shape
    requires there { number < length cells.now }
    requires known { kind_of (item_at cells.now number) ≢ another }
    ensures { IsShape cells.now number result }
{
    match cells.key(number) {
        Key::Free(_) => Shape::Variable,
        Key::Bound(_) => Shape::Index,
        Key::App(symbol, terms) => Shape::Application(*symbol, *terms),
        Key::Nil => Shape::Empty,
        Key::Cons(term, terms) => Shape::Front(*term, *terms),
        _ => unreachable!(),
    }
}

/// What makes two numbers equal at which different things stand.
pub(crate) fn decide(cells: &Cells, first: u32, other: u32) -> Decision
    requires first { first < length cells.now }
    requires other { other < length cells.now }
    requires apart { first ≢ other }
    requires kinds { kind_of (item_at cells.now first) ≡ kind_of (item_at cells.now other) }
    requires known { kind_of (item_at cells.now first) ≢ another }
    ensures { IsDecision cells.now first other result }
{
    cells.known();
    match (shape_of(cells, first), shape_of(cells, other)) {
        (Shape::Variable, Shape::Variable) => Decision::Level,
        (Shape::Variable, _) => Decision::FirstUnder,
        (_, Shape::Variable) => Decision::OtherUnder,
        (Shape::Application(symbol, terms), Shape::Application(same, others)) => {
            if symbol == same {
                Decision::LevelOne((terms, others))
            } else {
                Decision::Clash
            }
        }
        (Shape::Front(term, terms), Shape::Front(next, others)) => {
            Decision::LevelTwo((term, next), (terms, others))
        }
        (Shape::Index | Shape::Application(..) | Shape::Empty | Shape::Front(..), _) => {
            Decision::Clash
        }
    }
}
