//! Searches for proofs of small sequents, which were followed by hand.
ghost use Rattle.std.specs.Prelude.{IfOk};
ghost use Rattle.search_laws.specs.Truth.{IsPropositional};
ghost use Rattle.proof_graph.specs.Graphs.{IsPassOf};

use crate::samples::{assert_proof, sequent};
use lk_rules::Sequent;
use proof_graph::{Graph, GraphPass};
use prop_search::{SearchFault, decide, is_propositional, search};
use std::alloc::Global;
use std::process::Abort;
use std::sync::Wait;
use std::test::Fail;

// How many sequents the search visits, the sequent, and `valid` or an assignment under which it is false, as the left side of a sequent.
// Of `~|/` the negation is taken first; after the disjunction it would be taken twice. Of `|/&` the left is taken first; after the right
// the search would end with q.
const SEARCHES: &str = "5 |/{q|p} valid
3 |/p q/
1 /T valid
1 F/ valid
1 Tp/qF p/
1 |/| valid
1 / /
3 >p/q valid
5 /{((p=>q)=>p)=>p} valid
3 /{p|~p} valid
2 &/q valid
4 ~|/ q/
4 |/& p/";

// The sequent of a text, without quantifiers.
fn sequent_of<R: Abort>(rt: &R, alloc: Global, text: &str) -> Result<Sequent, Fail>
    ensures { IfOk result IsPropositional }
{
    let sequent = sequent(alloc, text)?;
    assert!(rt; is_propositional(&sequent));
    Ok(sequent)
}

// Sees that the search visits so many sequents, no fewer, and what it answers.
fn assert_search<R: Abort>(rt: &R, alloc: Global, row: &str) -> Result<(), Fail> {
    let (visits, rest) = row.split_once(' ').ok_or("no number")?;
    let (text, answer) = rest.split_once(' ').ok_or("no answer")?;
    let visits = visits.parse::<u64>()?;
    let sequent = sequent_of(rt, alloc, text)?;
    let short = decide(alloc, &sequent, visits.saturating_sub(1));
    assert!(rt; matches!(short, Err(SearchFault::Budget)), "{row}");
    match decide(alloc, &sequent, visits) {
        Ok(()) => assert!(rt; answer == "valid", "{row}"),
        Err(SearchFault::Falsified(atoms)) => {
            let wanted = sequent_of(rt, alloc, answer)?;
            assert!(rt; atoms == wanted.left, "{row}");
        }
        Err(_) => assert!(rt; false, "{row}"),
    }
    Ok(())
}

#[test]
fn searches(rt: HostRuntime) -> Result<(), Fail> {
    for row in SEARCHES.lines() {
        assert_search(&rt, rt.alloc(), row)?;
    }
    Ok(())
}

// Refused searches put nothing into the graph: the five nodes of the proof that comes next are its first.
fn assert_refusals<R: Abort + Wait>(
    rt: &R,
    alloc: Global,
    graph: &Graph,
    pass: &mut GraphPass,
) -> Result<(), Fail>
    requires { IsPassOf graph.now pass.old }
    ensures { IsPassOf graph.now pass.new }
{
    let wrong = sequent_of(rt, alloc, "|/p")?;
    let right = sequent_of(rt, alloc, "|/{q|p}")?;
    let refused = search(rt, alloc, graph, pass, &wrong, 9);
    assert!(rt; matches!(refused, Err(SearchFault::Falsified(_))));
    let refused = search(rt, alloc, graph, pass, &right, 4);
    assert!(rt; matches!(refused, Err(SearchFault::Budget)));
    let Ok(proof) = search(rt, alloc, graph, pass, &right, 5) else {
        return Err(Fail::from("no proof"));
    };
    assert_eq!(rt; proof.number(), 4);
    let steps = "ax p p/pq;orR {q|p} p/{q|p} 0;ax q q/pq;orR {q|p} q/{q|p} 2;orL | |/{q|p} 1,3";
    assert_proof(rt, alloc, graph, pass, &proof, steps)
}

#[test]
fn refused_searches_leave_the_graph(rt: HostRuntime) -> Result<(), Fail> {
    let (graph, mut pass) = Graph::new(rt.alloc())?;
    let seen = assert_refusals(&rt, rt.alloc(), &graph, &mut pass);
    graph.close(&rt, pass);
    seen
}
