//! Formulas, variables and names of symbols that are known to be well formed.
ghost use Rattle.std.specs.Prelude.{◌≡◌, true};
ghost use Rattle.std.specs.List.{All};
ghost use Rattle.fol.specs.Formed.{is_name, IsFormed, IsFormedVar};

use fol::{Formula, Text, Var};
use std::marker::Model;

/// A well-formed formula.
#[derive(Drop)]
pub struct FormedFormula {
    formula: Formula,
}

impl Model for FormedFormula {
    ghost use Rattle.fol.specs.Syntax.{Formula as Meaning};
    ghost use Rattle.fol.specs.Codes.{coded_formula};
    ghost use Rattle.fol.specs.Formed.{IsFormed};

    ghost Value = { Meaning };

    ghost coded = { coded_formula };

    ghost view = { λ f. f.formula };

    ghost invariant = { λ f. IsFormed f.formula };
}

impl FormedFormula {
    /// The formula, which has to be well formed.
    pub fn new(formula: Formula) -> FormedFormula
        requires { IsFormed formula }
        ensures { result ≡ formula }
    {
        FormedFormula { formula }
    }

    /// The formula.
    pub fn get(&self) -> &Formula
        ensures formula { result.now ≡ self.now }
        ensures formed { IsFormed result.now }
    {
        &self.formula
    }
}

/// A well-formed variable.
#[derive(Drop)]
pub struct FormedVar {
    var: Var,
}

impl Model for FormedVar {
    ghost use Rattle.fol.specs.declared.symbols.Var.{Var as Meaning};
    ghost use Rattle.free_variables.specs.Sets.{coded_var};
    ghost use Rattle.fol.specs.Formed.{IsFormedVar};

    ghost Value = { Meaning };

    ghost coded = { coded_var };

    ghost view = { λ v. v.var };

    ghost invariant = { λ v. IsFormedVar v.var };
}

impl FormedVar {
    /// The variable, which has to be well formed.
    pub fn new(var: Var) -> FormedVar
        requires { IsFormedVar var }
        ensures { result ≡ var }
    {
        FormedVar { var }
    }

    /// The variable.
    pub fn get(&self) -> &Var
        ensures var { result.now ≡ self.now }
        ensures formed { IsFormedVar result.now }
    {
        &self.var
    }
}

/// A list of well-formed variables.
#[derive(Drop)]
pub struct FormedVars {
    items: Vec<Var>,
}

impl Model for FormedVars {
    ghost use Rattle.std.specs.Prelude.{List};
    ghost use Rattle.std.specs.List.{All};
    ghost use Rattle.std.specs.Coded.{coded_list};
    ghost use Rattle.fol.specs.declared.symbols.Var.{Var as Meaning};
    ghost use Rattle.free_variables.specs.Sets.{coded_var};
    ghost use Rattle.fol.specs.Formed.{IsFormedVar};

    ghost Value = { List Meaning };

    ghost coded = { coded_list coded_var };

    ghost view = { λ a. a.items.items };

    ghost invariant = { λ a. All IsFormedVar a.items.items };
}

impl FormedVars {
    /// The list of these variables, each of which has to be well formed.
    pub fn from_vec(items: Vec<Var>) -> FormedVars
        requires { All IsFormedVar items.items }
        ensures { result ≡ items.items }
    {
        FormedVars { items }
    }

    /// The variables, in order.
    pub fn as_slice(&self) -> &[Var]
        ensures vars { result.now ≡ self.now }
        ensures formed { All IsFormedVar result.now }
    {
        self.items.as_slice()
    }
}

/// The name of a symbol: one or more printable bytes.
#[derive(Drop)]
pub struct SymbolName {
    text: Text,
}

impl Model for SymbolName {
    ghost use Rattle.std.specs.Prelude.{◌≡◌, ℕ, true, List};
    ghost use Rattle.fol.specs.Formed.{is_name};

    ghost Value = { List ℕ };

    ghost view = { λ s. s.text };

    ghost invariant = { λ s. is_name s.text ≡ true };
}

impl SymbolName {
    /// The name with this text, which has to be one.
    pub fn new(text: Text) -> SymbolName
        requires { is_name text ≡ true }
        ensures { result ≡ text }
    {
        SymbolName { text }
    }

    /// The name's text.
    pub fn get(&self) -> &Text
        ensures text { result.now ≡ self.now }
        ensures is_name { is_name self.now ≡ true }
    {
        &self.text
    }
}
