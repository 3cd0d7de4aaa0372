//! Texts that are written: those of sequents, and the lines of generated jobs.
use crate::samples::formula_of;
use fol::Text;
use job_gen::{generate, generate_line};
use lk_rules::{Sequent, Side};
use std::alloc::{AllocError, Global};
use std::test::Fail;
use tptp_print::print_sequent;

// Texts with commas between them.
fn joined(alloc: Global, texts: &[Text]) -> Result<Vec<u8>, AllocError> {
    let mut out = Vec::new(alloc);
    for text in texts {
        if !out.is_empty() {
            out.extend_from_slice(b", ")?;
        }
        out.extend_from_slice(text.as_bytes())?;
    }
    Ok(out)
}

// Each formula once, by rising formula, whatever the order in which they are added.
#[test]
fn sequents(rt: HostRuntime) -> Result<(), Fail> {
    let alloc = rt.alloc();
    let mut sequent = Sequent::empty(alloc);
    for text in ["![X]: q(X)", "q(b)", "p", "q(a)", "p", "![Y]: q(Y)"] {
        sequent.add(Side::Left, formula_of(alloc, text.as_bytes())?)?;
    }
    sequent.add(Side::Right, formula_of(alloc, b"?[X]: ~q(X)")?)?;
    let (left, right) = print_sequent(alloc, &sequent)?;
    assert_eq!(rt;
        str::from_utf8(&joined(alloc, left.as_slice())?),
        Ok("p, q(a), q(b), ![V0]: q(V0)")
    );
    assert_eq!(rt;
        str::from_utf8(&joined(alloc, right.as_slice())?),
        Ok("?[V0]: ~q(V0)")
    );
    let (left, right) = print_sequent(alloc, &Sequent::empty(alloc))?;
    assert!(rt; left.as_slice().is_empty() && right.as_slice().is_empty());
    Ok(())
}

/// The second job and the third one that are generated.
const SECOND_AND_THIRD: &str = r#"{"job":"g1","op":"cutelim","proof":"g0"}
{"job":"g2","op":"expand","proof":"g1"}
"#;

#[test]
fn generated_jobs(rt: HostRuntime) -> Result<(), Fail> {
    let alloc = rt.alloc();
    let mut lines = Vec::new(alloc);
    for i in 0..20 {
        lines.extend_from_slice(&generate_line(alloc, i)?)?;
    }
    let twenty = generate(alloc, 20)?;
    assert!(rt; twenty == lines);
    let three = generate(alloc, 3)?;
    assert!(rt; three.ends_with(SECOND_AND_THIRD.as_bytes()));
    Ok(())
}
