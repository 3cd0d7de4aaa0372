//! What a definition comes to, and definitions that are used.
ghost use Rattle.std.specs.Prelude.{◌≡◌, ◌<◌, ◌^◌, List, true, length, map, IfOk, IfErr};
ghost use Rattle.std.specs.List.{All};
ghost use Rattle.fol.specs.declared.symbols.Sym.{Sym as Symbol};
ghost use Rattle.fol.specs.Syntax.{Pred, pred, defined as defined_by, Formula as FormulaMeaning};
ghost use Rattle.fol.specs.Formed.{is_name, IsFormed, IsFormedPred};
ghost use Rattle.proof_graph.specs.declared.graph.Graph.{Graph as GraphMeaning};
ghost use Rattle.operation_laws.specs.Answers.{Answer};
ghost use Rattle.operation_laws.specs.Given.{definitions_given as definitions_found, found};
ghost use Rattle.operation_laws.specs.Running.{over, repeated as repeated_name, formula_with, defines, defines_with, run};
ghost use Rattle.def_laws.specs.Defining.{defining};
ghost use Rattle.held_values.specs.Means.{sense, Fits};
ghost use Rattle.operations.specs.Means.{Comes, ComesTo, LacksAlways};

use crate::answers::{Made, Ran};
use crate::given::{are_defined, definitions_given, text_copy};
use def_laws::{DefFault, laws};
use def_symbols::{Definitions, define, first_twice, mark};
use fol::{Formula, Predicate, Text, Var};
use held_values::Held;
use job_lang::Op;
use job_words::{FormedFormula, FormedVar, FormedVars, SymbolName, Utf8Text, Utf8Texts};
use operation_laws::Failure;
use std::alloc::{AllocError, Global};

// The definitions that the names of a list are given, where each is given one.
fn table_given(alloc: Global, names: &[Utf8Text], given: &[Held]) -> Result<Definitions, AllocError>
    requires { length given.now ≡ length names.now }
    ensures found { IfOk result (λ ds. definitions_found names.now (map sense given.now) ≡ found ds) }
    ensures formed { IfOk result (λ ds. (g : GraphMeaning) → All (Fits g) given.now → All IsFormedPred ds) }
{
    Definitions::new(alloc, definitions_given(alloc, names, given)?)
}

/// The definitions that the names of a list are given, or what an operation comes to that uses them and has none of a name. It may lack memory
/// whatever its definitions are.
#[tactic(auto, using(crate::proofs::DefinitionsUsed::some_lack))]
pub fn definitions_for(
    alloc: Global,
    names: &[Utf8Text],
    given: &[Held],
) -> Result<Definitions, Ran>
    requires { length given.now ≡ length names.now }
    ensures found { IfOk result (λ ds. definitions_found names.now (map sense given.now) ≡ found ds) }
    ensures formed { IfOk result (λ ds. (g : GraphMeaning) → All (Fits g) given.now → All IsFormedPred ds) }
    ensures none { IfErr result (λ ran. (g : GraphMeaning) (k : List Pred → Answer) → LacksAlways k
        → Comes g ran (over (definitions_found names.now (map sense given.now)) k)) }
{
    if let Err(absent) = are_defined(alloc, names, given) {
        return Err(Ran::from(absent));
    }
    match table_given(alloc, names, given) {
        Ok(symbols) => Ok(symbols),
        Err(_) => Err(Ran::Lacking),
    }
}

/// The first name of a list whose definition is of the symbol of an earlier one.
pub fn repeated(
    alloc: Global,
    names: &[Utf8Text],
    symbols: &[Predicate],
) -> Result<Option<Utf8Text>, AllocError>
    ensures { IfOk result (λ name. name ≡ repeated_name names.now symbols.now) }
{
    match first_twice(alloc, symbols)? {
        Some(place) => match names.get(place) {
            Some(text) => Ok(Some(text_copy(alloc, text)?)),
            None => Ok(None),
        },
        None => Ok(None),
    }
}

// The formula with the definitions put into it.
fn body_with(
    alloc: Global,
    body: &Formula,
    names: &[Utf8Text],
    symbols: &Definitions,
) -> Result<Formula, AllocError>
    requires body { IsFormed body.now }
    requires symbols { All IsFormedPred symbols.now }
    ensures value { IfOk result (λ f. f ≡ formula_with names.now symbols.now body.now) }
    ensures formed { IfOk result IsFormed }
{
    if names.is_empty() {
        return body.copy();
    }
    mark(alloc, symbols, body)
}

// A symbol with the formula that it stands for.
fn taken_apart(symbol: &Predicate) -> Result<Made, AllocError>
    ensures { IfOk result (λ made. (s : Symbol) × (f : FormulaMeaning) × (made ≡ Made.Definition s f) × (symbol.now ≡ pred s (defined_by f))) }
{
    match &symbol.body {
        Some(body) => Ok(Made::Definition(symbol.symbol.copy()?, body.copy()?)),
        None => Err(AllocError),
    }
}

// The symbol of a name that stands for a formula.
fn symbol_for(alloc: Global, name: Text, vars: &[Var], body: &Formula) -> Ran
    requires name { is_name name ≡ true }
    requires count { length vars.now < 2 ^ 32 }
    requires body { IsFormed body.now }
    ensures { (g : GraphMeaning) → Comes g result (defines name vars.now body.now (defining name vars.now body.now)) }
{
    laws::answers_to_definitions();
    match define(alloc, name, vars, body) {
        Ok(symbol) => match taken_apart(&symbol) {
            Ok(made) => Ran::Done(made),
            Err(_) => Ran::Lacking,
        },
        Err(DefFault::Memory) => Ran::Lacking,
        Err(DefFault::Free(var)) => Ran::Failed(Failure::DefFree(FormedVar::new(var))),
        Err(DefFault::Large) => Ran::Failed(Failure::DefLarge),
    }
}

// The same, with the symbol's name as it stands in a line.
fn defined(alloc: Global, symbol: &SymbolName, vars: &FormedVars, body: &Formula) -> Ran
    requires { IsFormed body.now }
    ensures { (g : GraphMeaning) → Comes g result (defines symbol.now vars.now body.now (defining symbol.now vars.now body.now)) }
{
    let vars = vars.as_slice();
    if vars.len() >= 1 << 32 {
        return Ran::Lacking;
    }
    match symbol.get().copy() {
        Ok(name) => symbol_for(alloc, name, vars, body),
        Err(_) => Ran::Lacking,
    }
}

// The same where the formula has the definitions put into it.
#[tactic(auto, using(crate::proofs::DefinitionsUsed::twice_comes, crate::proofs::DefinitionsUsed::once_comes))]
fn defined_with(
    alloc: Global,
    symbol: &SymbolName,
    vars: &FormedVars,
    body: &FormedFormula,
    names: &[Utf8Text],
    symbols: &Definitions,
) -> Ran
    requires { All IsFormedPred symbols.now }
    ensures { (g : GraphMeaning) → Comes g result (defines_with symbol.now vars.now body.now names.now symbols.now) }
{
    match repeated(alloc, names, symbols.as_slice()) {
        Ok(Some(name)) => return Ran::Failed(Failure::DefTwice(name)),
        Ok(None) => {}
        Err(_) => return Ran::Lacking,
    }
    match body_with(alloc, body.get(), names, symbols) {
        Ok(body) => defined(alloc, symbol, vars, &body),
        Err(_) => Ran::Lacking,
    }
}

/// A symbol that stands for a formula, in which the symbols of other definitions stand for theirs.
pub fn define_in(
    alloc: Global,
    symbol: &SymbolName,
    vars: &FormedVars,
    body: &FormedFormula,
    names: &Utf8Texts,
    given: &[Held],
) -> Ran
    requires count { length given.now ≡ length names.now }
    requires fits { (g : GraphMeaning) × All (Fits g) given.now }
    ensures { (g : GraphMeaning) → ComesTo g result (run (Op.Define symbol.now vars.now body.now names.now) (map sense given.now)) }
{
    let names = names.as_slice();
    match definitions_for(alloc, names, given) {
        Ok(symbols) => defined_with(alloc, symbol, vars, body, names, &symbols),
        Err(ran) => ran,
    }
}
