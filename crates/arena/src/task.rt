//! Tasks whose results an arena keeps.

/// A change of terms and formulas, by numbers.
#[derive(Clone, Copy)]
pub enum Change {
    /// The term takes the place of the variable of the quantifier that has so many quantifiers between itself and what is changed.
    Instance(u32, u32),
    /// The map's terms take the places of its variables.
    Image(u32),
    /// The index of such a quantifier takes the place of the variable.
    Bind(u32, u32),
}

/// A task whose result an arena keeps, by numbers.
#[derive(Clone, Copy)]
pub enum Task {
    /// What stands at the number, changed.
    Change(Change, u32),
    /// The image of a set of formulas, the second number, under a map, the first.
    Image(u32, u32),
    /// A proof tree, the second number, under a map, the first.
    TreeImage(u32, u32),
}
