//! The formulas that texts are.
ghost use Rattle.std.specs.Prelude.{◌≡◌, ◌<◌, ◌^◌, length, Ok, Err, IfOk, IfSome};
ghost use Rattle.fol.specs.Formed.{IsFormed};
ghost use Rattle.fol.specs.Syntax.{Formula as FormulaMeaning};
ghost use Rattle.tptp_tokens.specs.declared.tokens.TextFault.{TextFault};
ghost use Rattle.tptp_read.specs.Given.{GivesText, IfFault};
ghost use Rattle.tptp_read.specs.Texts.{IsFormulaText, IsFormulaFault, formula_reading};

use fol::Formula;
use json::Scratch;
use std::alloc::{AllocError, Global};
use std::collections::HashMap;
use std::marker::Model;
use tptp_read::laws::{formed_readings, readings};
use tptp_read::{TextError, read_formula};

/// How many bytes the texts in the table have at most, with `BYTES_BESIDE` more for each.
const CAPACITY: usize = 16 << 20;

/// What an entry is taken to need beside its text.
const BYTES_BESIDE: usize = 64;

/// The formulas that some texts are. A text that was read before is looked up, and its formula shares the nodes of the earlier one.
/// The table keeps up to 16 MiB of texts; when it is full it is emptied. A text that can't be kept is read anew each time. Beside them stands
/// the memory in which the JSON of lines is read, so that it is made once and not for each line.
#[derive(Drop)]
pub struct FormulaTexts {
    formulas: HashMap<String, Formula>,
    room: usize,
    scratch: Option<Box<Scratch>>,
}

impl Model for FormulaTexts {
    ghost use Rattle.text_tables.specs.Entries.{AreReadings};

    ghost Value = { Unit {0} };

    ghost view = { λ _. tt };

    ghost invariant = { λ t. AreReadings t.formulas };
}

impl FormulaTexts {
    /// The table with no text.
    pub fn new(alloc: Global) -> FormulaTexts {
        FormulaTexts {
            formulas: HashMap::new(alloc),
            room: CAPACITY,
            scratch: None,
        }
    }

    /// The memory for reading the JSON of a line: what was kept last, or what is made anew.
    pub fn take_scratch(&mut self, alloc: Global) -> Result<Box<Scratch>, AllocError> {
        match self.scratch.take() {
            Some(scratch) => Ok(scratch),
            None => Ok(Box::new(alloc, Scratch::new(alloc))?),
        }
    }

    /// Keeps the memory for the next line. It has grown to the longest line that was read in it.
    pub fn keep_scratch(&mut self, scratch: Box<Scratch>) {
        self.scratch = Some(scratch);
    }

    /// The formula that the text is, as `read_formula` reads it. Faults aren't kept. Where only the room in the table lacks memory, the
    /// answer stands.
    pub fn read(&mut self, alloc: Global, text: &str) -> Result<Formula, TextError>
        requires { length text.now < 2 ^ 32 }
        // It is the one reading of the whole text.
        ensures text { IfOk result (λ f. IsFormulaText text.now f) }
        // A text that has a reading is read, unless memory runs out.
        ensures only { (f : FormulaMeaning) → IsFormulaText text.now f → GivesText (λ g. g) result (Ok f) }
        // A fault is the first one of the text.
        ensures fault { IfFault result (λ e. IsFormulaFault text.now e) }
        // A text that has a first fault is refused with it, unless memory runs out.
        ensures first { (e : TextFault) → IsFormulaFault text.now e → GivesText (λ g. g) result (Err e) }
        // A text has at most one reading and at most one first fault.
        ensures one { (f g : FormulaMeaning) → IsFormulaText text.now f → IsFormulaText text.now g → f ≡ g }
        ensures one_fault { (d e : TextFault) → IsFormulaFault text.now d → IsFormulaFault text.now e → d ≡ e }
        // It is the text's reading as a function.
        ensures reading { GivesText (λ f. f) result (formula_reading text.now) }
        // What is read is well formed.
        ensures formed { IfOk result IsFormed }
    {
        readings();
        formed_readings();
        self.find_or_read(alloc, text)
    }

    fn find_or_read(&mut self, alloc: Global, text: &str) -> Result<Formula, TextError>
        requires { length text.now < 2 ^ 32 }
        ensures { GivesText (λ f. f) result (formula_reading text.now) }
    {
        if let Some(formula) = self.find(text) {
            let formula = formula.copy()?;
            return Ok(formula);
        }
        let formula = read_formula(alloc, text.as_bytes())?;
        self.keep(alloc, text, &formula);
        Ok(formula)
    }

    fn find(&self, text: &str) -> Option<&Formula>
        ensures { IfSome result (λ f. formula_reading text.now ≡ Ok f.now) }
    {
        self.formulas.get(text)
    }

    // Keeps the formula for its text, if there is memory for it.
    fn keep(&mut self, alloc: Global, text: &str, formula: &Formula)
        requires { formula_reading text.now ≡ Ok formula.now }
    {
        if !self.makes_room(text.len().saturating_add(BYTES_BESIDE)) {
            return;
        }
        let Ok(key) = String::from_str(alloc, text) else {
            return;
        };
        let Ok(formula) = formula.copy() else {
            return;
        };
        drop(self.formulas.insert(key, formula));
    }

    // Takes room for an entry, in an empty table where this one is full. An entry that is larger than any room gets none.
    fn makes_room(&mut self, needed: usize) -> bool {
        if needed > CAPACITY {
            return false;
        }
        if needed > self.room {
            self.formulas.clear();
            self.room = CAPACITY;
        }
        self.room = self.room.saturating_sub(needed);
        true
    }
}
