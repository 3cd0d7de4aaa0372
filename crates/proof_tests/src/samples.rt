//! Proofs and sequents from short texts.
//!
//! A proof is a list of steps with `;` between them. A step is words: the name of its rule, what the rule names, the conclusion, and where
//! it has premises their numbers with `,` between them. A rule names `-` for nothing, or a formula, behind which `@` and a term or an
//! eigenvariable may stand. A conclusion has `/` between its sides. A formula is a letter of `formula_text`, or its text in braces, without
//! a blank.
ghost use Rattle.std.specs.Prelude.{IfOk};
ghost use Rattle.std.specs.List.{All};
ghost use Rattle.fol.specs.Formed.{IsFormed, IsFormedTerm, IsFormedVar};
ghost use Rattle.lk_rules.specs.Rules.{IsFormedRule};
ghost use Rattle.proof_graph.specs.Graphs.{IsOf, IsPassOf};

use fol::{Formula, Term, Var};
use lk_check::admit;
use lk_rules::{Formulas, Numbers, Rule, Sequent, Step};
use proof_graph::{Graph, GraphPass, ProofRef};
use std::alloc::Global;
use std::process::Abort;
use std::sync::Wait;
use std::test::Fail;
use tptp_read::{read_formula, read_term};
use tptp_tokens::read_variable;

// The longest text of a formula or a term, in bytes.
const LONGEST: usize = 100;

// The text of the formula that a letter stands for.
fn formula_text(letter: char) -> &'static str {
    match letter {
        'T' => "$true",
        'F' => "$false",
        '~' => "~p",
        'N' => "~ ~p",
        '&' => "p & q",
        '|' => "p | q",
        '=' => "p | p",
        '>' => "p => q",
        'A' => "![Z]: u(Z)",
        'm' => "~ ![Z]: u(Z)",
        'M' => "~ ~ ![Z]: u(Z)",
        'E' => "?[Z]: u(Z)",
        'o' => "~ ?[Z]: u(Z)",
        'O' => "~ ~ ?[Z]: u(Z)",
        'a' => "u(a)",
        'b' => "u(b)",
        'x' => "u(X)",
        'y' => "u(Y)",
        'v' => "u(V0)",
        'f' => "u(f(Y))",
        'B' => "![Z]: s(Z,Y)",
        'S' => "?[Z]: s(Z,Y)",
        'C' => "s(X,Y)",
        'D' => "s(Y,Y)",
        'G' => "![Z]: ![W]: s(Z,W)",
        'I' => "![W]: s(Y,W)",
        'p' => "p",
        'q' => "q",
        _ => "r",
    }
}

/// The formula of a short text.
pub fn formula(alloc: Global, text: &str) -> Result<Formula, Fail>
    ensures { IfOk result IsFormed }
{
    if text.len() > LONGEST {
        return Err(Fail::from("a long formula"));
    }
    Ok(read_formula(alloc, text.as_bytes())?)
}

fn term(alloc: Global, text: &str) -> Result<Term, Fail>
    ensures { IfOk result IsFormedTerm }
{
    if text.len() > LONGEST {
        return Err(Fail::from("a long term"));
    }
    Ok(read_term(alloc, text.as_bytes())?)
}

fn variable(alloc: Global, text: &str) -> Result<Var, Fail>
    ensures { IfOk result IsFormedVar }
{
    match read_variable(alloc, text.as_bytes())? {
        Some(var) => Ok(var),
        None => Err(Fail::from("no variable")),
    }
}

// Adds the texts of the formulas that letters stand for to a list.
fn push_letters(alloc: Global, list: &mut Vec<String>, letters: &str) -> Result<(), Fail> {
    for letter in letters.chars() {
        list.push(String::from_str(alloc, formula_text(letter))?)?;
    }
    Ok(())
}

// The texts of the formulas of a side, in order.
fn texts(alloc: Global, codes: &str) -> Result<Vec<String>, Fail> {
    let mut list = Vec::new(alloc);
    for part in codes.split('{') {
        match part.split_once('}') {
            Some((text, letters)) => {
                list.push(String::from_str(alloc, text)?)?;
                push_letters(alloc, &mut list, letters)?;
            }
            None => push_letters(alloc, &mut list, part)?,
        }
    }
    Ok(list)
}

// The formulas of a side, in order.
fn formulas(alloc: Global, codes: &str) -> Result<Vec<Formula>, Fail>
    ensures { IfOk result (λ v. All IsFormed v.items) }
{
    let texts = texts(alloc, codes)?;
    let mut list = Vec::new(alloc);
    for text in &texts {
        list.push(formula(alloc, text)?)?;
    }
    Ok(list)
}

/// The sequent of a text.
pub fn sequent(alloc: Global, text: &str) -> Result<Sequent, Fail> {
    let (left, right) = text.split_once('/').unwrap_or((text, ""));
    let left = Formulas::from_vec(alloc, formulas(alloc, left)?)?;
    let right = Formulas::from_vec(alloc, formulas(alloc, right)?)?;
    Ok(Sequent { left, right })
}

// The rule that names nothing.
fn bare_rule(name: &str) -> Result<Rule, Fail>
    ensures { IfOk result IsFormedRule }
{
    match name {
        "topR" => Ok(Rule::TopR),
        "botL" => Ok(Rule::BotL),
        "weak" => Ok(Rule::Weak),
        _ => Err(Fail::from("no such rule")),
    }
}

// The rule that names a formula alone.
fn main_rule(name: &str, main: Formula) -> Result<Rule, Fail>
    requires { IsFormed main }
    ensures { IfOk result IsFormedRule }
{
    match name {
        "ax" => Ok(Rule::Ax(main)),
        "negL" => Ok(Rule::NegL(main)),
        "negR" => Ok(Rule::NegR(main)),
        "andL" => Ok(Rule::AndL(main)),
        "andR" => Ok(Rule::AndR(main)),
        "orL" => Ok(Rule::OrL(main)),
        "orR" => Ok(Rule::OrR(main)),
        "impL" => Ok(Rule::ImpL(main)),
        "impR" => Ok(Rule::ImpR(main)),
        "cut" => Ok(Rule::Cut(main)),
        _ => Err(Fail::from("no such rule")),
    }
}

// The rule of a quantifier, with its term or its eigenvariable.
fn quantifier_rule(alloc: Global, name: &str, main: Formula, chosen: &str) -> Result<Rule, Fail>
    requires { IsFormed main }
    ensures { IfOk result IsFormedRule }
{
    match name {
        "allL" => Ok(Rule::AllL(main, term(alloc, chosen)?)),
        "allR" => Ok(Rule::AllR(main, variable(alloc, chosen)?)),
        "exL" => Ok(Rule::ExL(main, variable(alloc, chosen)?)),
        "exR" => Ok(Rule::ExR(main, term(alloc, chosen)?)),
        _ => Err(Fail::from("no such rule")),
    }
}

// The one formula of a text.
fn main_formula(alloc: Global, codes: &str) -> Result<Formula, Fail>
    ensures { IfOk result IsFormed }
{
    match formulas(alloc, codes)?.pop() {
        Some(main) => Ok(main),
        None => Err(Fail::from("no formula")),
    }
}

/// The rule of a name with what it names.
pub fn rule(alloc: Global, name: &str, names: &str) -> Result<Rule, Fail>
    ensures { IfOk result IsFormedRule }
{
    if names == "-" {
        return bare_rule(name);
    }
    match names.split_once('@') {
        None => main_rule(name, main_formula(alloc, names)?),
        Some((main, chosen)) => quantifier_rule(alloc, name, main_formula(alloc, main)?, chosen),
    }
}

// The numbers of a text, with `,` between them.
fn numbers(alloc: Global, text: &str) -> Result<Numbers, Fail> {
    let mut list = Vec::new(alloc);
    for number in text.split(',') {
        if !number.is_empty() {
            list.push(number.parse::<u64>()?)?;
        }
    }
    Ok(Numbers::from_vec(list))
}

fn step(alloc: Global, text: &str) -> Result<Step, Fail>
    ensures { IfOk result (λ step. IsFormedRule step.rule) }
{
    let mut words = text.split_whitespace();
    let name = words.next().ok_or("no rule")?;
    let names = words.next().ok_or("nothing named")?;
    let end = words.next().ok_or("no conclusion")?;
    let premises = words.next().unwrap_or("");
    let rule = rule(alloc, name, names)?;
    let premises = numbers(alloc, premises)?;
    let end = sequent(alloc, end)?;
    Ok(Step {
        rule,
        premises,
        end,
    })
}

/// The steps of a text.
pub fn steps(alloc: Global, text: &str) -> Result<Vec<Step>, Fail>
    ensures { IfOk result (λ v. All (λ step. IsFormedRule step.rule) v.items) }
{
    let mut list = Vec::new(alloc);
    for part in text.split(';') {
        list.push(step(alloc, part)?)?;
    }
    Ok(list)
}

/// The proof of a text.
pub fn proof<R: Wait>(
    rt: &R,
    alloc: Global,
    graph: &Graph,
    pass: &mut GraphPass,
    text: &str,
) -> Result<ProofRef, Fail>
    requires { IsPassOf graph.now pass.old }
    ensures of { IfOk result (IsOf graph.now) }
    ensures pass_stays { IsPassOf graph.now pass.new }
{
    let list = steps(alloc, text)?;
    Ok(admit(rt, alloc, graph, pass, list.as_slice())?)
}

/// Sees that a proof is that of a text: one graph has each proof once.
pub fn assert_proof<R: Abort + Wait>(
    rt: &R,
    alloc: Global,
    graph: &Graph,
    pass: &mut GraphPass,
    found: &ProofRef,
    text: &str,
) -> Result<(), Fail>
    requires pass_of { IsPassOf graph.now pass.old }
    requires of { IsOf graph.now found.now }
    ensures { IsPassOf graph.now pass.new }
{
    let wanted = proof(rt, alloc, graph, pass, text)?;
    assert!(rt; graph.same(found, &wanted), "{text}");
    Ok(())
}
