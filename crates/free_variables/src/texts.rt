//! Lists of texts.
ghost use Rattle.std.specs.Prelude.{◌≡◌, [], ◌∷◌, ◌++◌, IfOk, OnOk, OnErr};

use crate::rising::{Share, push_shared};
use fol::Text;
use std::alloc::{AllocError, Global};
use std::marker::Model;

/// A list of texts.
#[derive(Drop)]
pub struct Texts {
    items: Vec<Text>,
}

impl Model for Texts {
    ghost use Rattle.std.specs.Prelude.{ℕ, List};

    ghost Value = { List (List ℕ) };

    ghost view = { λ a. a.items.items };
}

impl Texts {
    /// The list with no text.
    pub fn new(alloc: Global) -> Texts
        ensures { result ≡ [] }
    {
        Texts {
            items: Vec::new(alloc),
        }
    }

    /// The list of these texts, which are moved and not copied.
    pub fn from_vec(items: Vec<Text>) -> Texts
        ensures { result ≡ items.items }
    {
        Texts { items }
    }

    /// The texts, in order.
    pub fn as_slice(&self) -> &[Text]
        ensures { result.now ≡ self.now }
    {
        self.items.as_slice()
    }

    /// The texts, in order, as a list of their own.
    pub fn into_vec(self) -> Vec<Text>
        ensures { result.items ≡ self }
    {
        let Texts { items } = self;
        items
    }

    /// Appends a text.
    pub fn push(&mut self, text: Text) -> Result<(), AllocError>
        ensures ok { OnOk result (self.new ≡ self.old ++ text ∷ []) }
        ensures err { OnErr result (self.new ≡ self.old) }
    {
        self.items.push(text)?;
        Ok(())
    }

    /// The same list, whose texts are shared.
    pub fn copy(&self, alloc: Global) -> Result<Texts, AllocError>
        ensures { IfOk result (λ copy. copy ≡ self.now) }
    {
        let mut items = Vec::with_capacity(alloc, self.items.len())?;
        push_shared(&mut items, &self.items)?;
        Ok(Texts { items })
    }
}

impl Share for Text {
    fn share(&self) -> Result<Text, AllocError> {
        self.copy()
    }
}
