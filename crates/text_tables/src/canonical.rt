//! The canonical texts of formulas.
ghost use Rattle.std.specs.Prelude.{◌≡◌, true, IfOk, IfSome};
ghost use Rattle.std.specs.List.{list_all};
ghost use Rattle.fol.specs.Formed.{IsFormed, is_printable};
ghost use Rattle.tptp_print.specs.Canonical.{canonical};
ghost use Rattle.text_tables.specs.Entries.{IsTextOf};

use fol::{Formula, Text};
use std::alloc::{AllocError, Global};
use std::collections::HashMap;
use std::marker::Model;
use tptp_print::print_formula;

/// How many bytes the texts in the table have at most, with `BYTES_BESIDE` more for each.
const CAPACITY: usize = 16 << 20;

/// What an entry is taken to need beside its text.
const BYTES_BESIDE: usize = 64;

/// A formula with its canonical text, which is printable.
#[derive(Drop)]
struct Printed {
    formula: Formula,
    text: Text,
    ghost is_text: { IsTextOf formula text },
}

/// The canonical texts of some formulas, each found by its formula's fingerprint. The text of a formula that was printed before is shared.
/// Of two formulas with one fingerprint the later one is kept. The table keeps up to 16 MiB of texts; when it is full it is emptied. A text
/// that can't be kept is made anew each time.
#[derive(Drop)]
pub struct CanonicalTexts {
    texts: HashMap<u64, Printed>,
    room: usize,
}

impl Model for CanonicalTexts {
    ghost Value = { Unit {0} };

    ghost view = { λ _. tt };
}

impl CanonicalTexts {
    /// The table with no formula.
    pub fn new(alloc: Global) -> CanonicalTexts {
        CanonicalTexts {
            texts: HashMap::new(alloc),
            room: CAPACITY,
        }
    }

    /// The canonical text of a formula, as `print_formula` makes it. Where only the room in the table lacks memory, the answer stands.
    pub fn print(&mut self, alloc: Global, formula: &Formula) -> Result<Text, AllocError>
        requires { IsFormed formula.now }
        ensures text { IfOk result (λ t. t ≡ canonical formula.now) }
        ensures printable { IfOk result (λ t. list_all is_printable t ≡ true) }
    {
        if let Some(text) = self.find(formula) {
            let text = text.copy()?;
            return Ok(text);
        }
        let text = print_formula(alloc, formula)?;
        self.keep(formula, &text);
        Ok(text)
    }

    fn find(&self, formula: &Formula) -> Option<&Text>
        ensures { IfSome result (λ t. IsTextOf formula.now t.now) }
    {
        let printed = self.texts.get(&formula.fingerprint())?;
        if printed.formula == *formula {
            Some(&printed.text)
        } else {
            None
        }
    }

    // Keeps the text of the formula, if there is memory for it.
    fn keep(&mut self, formula: &Formula, text: &Text)
        requires { IsTextOf formula.now text.now }
    {
        if !self.makes_room(text.as_bytes().len().saturating_add(BYTES_BESIDE)) {
            return;
        }
        let Ok(formula) = formula.copy() else {
            return;
        };
        let Ok(text) = text.copy() else {
            return;
        };
        let fingerprint = formula.fingerprint();
        drop(self.texts.insert(fingerprint, Printed { formula, text }));
    }

    // Takes room for an entry, in an empty table where this one is full. An entry that is larger than any room gets none.
    fn makes_room(&mut self, needed: usize) -> bool {
        if needed > CAPACITY {
            return false;
        }
        if needed > self.room {
            self.texts.clear();
            self.room = CAPACITY;
        }
        self.room = self.room.saturating_sub(needed);
        true
    }
}
