//! Inferences by each rule, right and with each fault, worked by hand.
use crate::samples::{rule, sequent};
use lk_rules::{RuleFault, aux, check};
use std::alloc::Global;
use std::process::Abort;
use std::test::Fail;

// The rule, what it names, the conclusion, the end sequents of the premises, with `-` for what is not there, and the answer.
const INFERENCES: &str = "ax p p/p - - ok
ax p pq/pr - - ok
ax & &/r& - - ok
ax p p/p p/ - premises
ax p p/ - - main_missing
ax p /p - - main_missing
ax p q/q - - main_missing
topR - /T - - ok
topR - p/qT - - ok
topR - T/ - - main_missing
topR - /F - - main_missing
topR - /T /T - premises
botL - F/ - - ok
botL - Fp/q - - ok
botL - /F - - main_missing
botL - T/ - - main_missing
botL - F/ F/ - premises
negL ~ ~r/q r/pq - ok
negL ~ ~r/q ~r/pq - ok
negL ~ ~r/q /p - ok
negL ~ ~r/q / - ok
negL ~ ~/ - - premises
negL p p/ /p - shape
negL ~ /~ /p - main_missing
negL ~ ~/ p/ - first
negL ~ ~/ /q - first
negR ~ r/~q pr/q - ok
negR ~ /~ p/~ - ok
negR ~ /~ - - premises
negR & /& p/ - shape
negR ~ ~/ p/ - main_missing
negR ~ /~ /p - first
negR ~ /~ q/ - first
andL & &r/ pqr/ - ok
andL & &/ p/ - ok
andL & &/ q/ - ok
andL & &/ p/ q/ premises
andL | |/ pq/ - shape
andL & /& pq/ - main_missing
andL & &/ pqr/ - first
andL & &/ /p - first
andR & r/& r/p r/q ok
andR & /& /&p /q ok
andR & /& /p - premises
andR | /| /p /q shape
andR & &/ /p /q main_missing
andR & /& /q /p first
andR & /& /p /p second
andR & /& /p q/ second
orL | |r/ pr/ qr/ ok
orL | |/q p/ /q ok
orL | |/ p/ - premises
orL & &/ p/ q/ shape
orL | /| p/ q/ main_missing
orL | |/ q/ p/ first
orL | |/ p/ p/ second
orL | |/ p/ /q second
orR | r/| r/pq - ok
orR | /| /q - ok
orR | /| /p /q premises
orR > /> /pq - shape
orR | |/ /pq - main_missing
orR | /| pq/ - first
orR | /| /r - first
impL > >r/ r/p qr/ ok
impL > >/p /p /p ok
impL > >/ q/ - premises
impL | |/ /p q/ shape
impL > /> /p q/ main_missing
impL > >/ q/ /p first
impL > >/ /p /q second
impL > >/ /p p/ second
impR > r/> pr/q - ok
impR > /> p/ - ok
impR > /> /q - ok
impR > /> - - premises
impR ~ /~ p/q - shape
impR > >/ p/q - main_missing
impR > /> q/p - first
impR > /> pr/q - first
allL A@a A/ a/ - ok
allL A@f(Y) Ap/ fp/ - ok
allL B@Y B/ D/ - ok
allL A@a A/ - - premises
allL E@a E/ a/ - shape
allL A@a /A a/ - main_missing
allL A@a A/ b/ - first
allL A@a A/ /a - first
allR A@Y /A /y - ok
allR A@Y x/A x/Ay - ok
allR G@Y /G /I - ok
allR A@Y /A - - premises
allR E@Y /E /y - shape
allR A@Y A/ /y - main_missing
allR A@Y /A /x - first
allR A@Y /A y/ - first
allR A@Y y/A y/y - eigen_free
allR A@Y /Ay /y - eigen_free
allR B@Y /B /D - eigen_free
allR A@X y/A y/x - ok
allR A@Y y/A /b - eigen_free
allR A@Y A/y /y - main_missing
allR A@Y I/A I/y - eigen_free
exL E@Y E/x y/x - ok
exL S@X S/ C/ - ok
exL E@Y E/ - - premises
exL A@Y A/ y/ - shape
exL E@Y /E y/ - main_missing
exL E@Y E/ x/ - first
exL E@Y E/ /y - first
exL E@Y E/y y/y - eigen_free
exL E@Y Ey/ y/ - eigen_free
exL S@Y S/ D/ - eigen_free
exL E@X E/y x/y - ok
exL E@Y Ey/ b/ - eigen_free
exL E@Y y/E y/ - main_missing
exR E@a /E /a - ok
exR E@f(Y) p/E p/fE - ok
exR S@X y/S y/C - ok
exR E@a /E /a /a premises
exR A@a /A /a - shape
exR E@a E/ /a - main_missing
exR E@a /E /b - first
exR E@a /E a/ - first
cut p r/q r/pq pr/q ok
cut & / /& &/ ok
cut p p/p p/p p/p ok
cut p / /p - premises
cut p / p/ /p first
cut p / /p /p second
cut p / /q p/ first
cut p / /p q/ second
weak - pr/q p/ - ok
weak - p/q p/q - ok
weak - p/q / - ok
weak - p/q - - premises
weak - p/q p/ /q premises
weak - p/ pr/ - first
weak - p/q q/p - first";

// The rule, what it names, the conclusion, and the premises with the auxiliary formulas alone.
const AUXILIARY: &str = "negL ~ ~/ /p -
negR ~ /~ p/ -
andL & &/ pq/ -
andR & /& /p /q
orL | |/ p/ q/
orR | /| /pq -
impL > >/ /p q/
impR > /> p/q -
allL G@Y G/ I/ -
allR B@X /B /C -
exL E@Y E/ y/ -
exR S@Y /S /D -
cut p / /p p/
weak - / / -";

// The word for what `check` answers.
fn word_of(verdict: Result<(), RuleFault>) -> &'static str {
    match verdict {
        Ok(()) => "ok",
        Err(RuleFault::Premises) => "premises",
        Err(RuleFault::Shape) => "shape",
        Err(RuleFault::MainMissing) => "main_missing",
        Err(RuleFault::EigenFree) => "eigen_free",
        Err(RuleFault::Premise(0)) => "first",
        Err(RuleFault::Premise(_)) => "second",
    }
}

// Sees what is answered to the inference of a row.
fn assert_inference<R: Abort>(rt: &R, alloc: Global, row: &str) -> Result<(), Fail> {
    let words: Vec<&str> = row.split_whitespace().collect(alloc)?;
    let [name, names, end, first, second, answer] = words.as_slice() else {
        return Err(Fail::from("no row"));
    };
    let rule = rule(alloc, name, names)?;
    let end = sequent(alloc, end)?;
    let left = sequent(alloc, first)?;
    let right = sequent(alloc, second)?;
    let verdict = match (*first, *second) {
        ("-", _) => check(&rule, &end, 0, None, None),
        (_, "-") => check(&rule, &end, 1, Some(&left), None),
        _ => check(&rule, &end, 2, Some(&left), Some(&right)),
    };
    assert!(rt; word_of(verdict) == *answer, "{row}");
    Ok(())
}

#[test]
fn inferences(rt: HostRuntime) -> Result<(), Fail> {
    for row in INFERENCES.lines() {
        assert_inference(&rt, rt.alloc(), row)?;
    }
    Ok(())
}

// Sees that the inference of a row is right, and that its premises have the auxiliary formulas.
fn assert_auxiliary<R: Abort>(rt: &R, alloc: Global, row: &str) -> Result<(), Fail> {
    let words: Vec<&str> = row.split_whitespace().collect(alloc)?;
    let [name, names, end, first, second] = words.as_slice() else {
        return Err(Fail::from("no row"));
    };
    let rule = rule(alloc, name, names)?;
    let end = sequent(alloc, end)?;
    let left = sequent(alloc, first)?;
    let right = sequent(alloc, second)?;
    let verdict = if *second == "-" {
        check(&rule, &end, 1, Some(&left), None)
    } else {
        check(&rule, &end, 2, Some(&left), Some(&right))
    };
    assert!(rt; verdict.is_ok(), "{row}");
    assert!(rt; aux(alloc, &rule, 0)? == left, "{row}");
    assert!(rt; *second == "-" || aux(alloc, &rule, 1)? == right, "{row}");
    Ok(())
}

#[test]
fn auxiliary_formulas(rt: HostRuntime) -> Result<(), Fail> {
    for row in AUXILIARY.lines() {
        assert_auxiliary(&rt, rt.alloc(), row)?;
    }
    Ok(())
}
