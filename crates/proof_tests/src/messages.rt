//! What faults say of themselves.
use cut_elim::ElimFault;
use exp_to_lk::BuildFault;
use std::process::Abort;
use std::test::Fail;

#[test]
fn messages_of_eliminations(rt: HostRuntime) -> Result<(), Fail> {
    for (fault, message) in [
        (ElimFault::Budget, "out of budget"),
        (ElimFault::Memory, "out of memory"),
    ] {
        let found = format!(in rt.alloc(); "{fault}")?;
        assert!(rt; found.as_str() == message);
    }
    Ok(())
}

#[test]
fn messages_of_buildings(rt: HostRuntime) -> Result<(), Fail> {
    for (fault, message) in [
        (BuildFault::Budget, "out of budget"),
        (BuildFault::Memory, "out of memory"),
    ] {
        let found = format!(in rt.alloc(); "{fault}")?;
        assert!(rt; found.as_str() == message);
    }
    Ok(())
}
