//! The texts of the faults of an open.
use crate::OpenFault;
use sqlite::{Error, ErrorCode};
use std::alloc::{AllocError, Global};
use std::process::Abort;
use std::test::Fail;

fn has_text(alloc: Global, rt: &impl Abort, fault: &OpenFault, text: &str) -> Result<(), Fail> {
    let said = format!(in alloc; "{fault}")?;
    assert_eq!(rt; said.as_str(), text);
    Ok(())
}

#[test]
fn each_fault_says_why(rt: HostRuntime) -> Result<(), Fail> {
    let no_registry = "the database is no registry of version 1 or 2";
    let out_of_memory = "there is no memory";
    let store_failed = "the store does not answer";
    for (fault, text) in [
        (OpenFault::NotARegistry, no_registry),
        (OpenFault::from(AllocError), out_of_memory),
        (
            OpenFault::from(Error::SqliteFailure(ErrorCode::OutOfMemory)),
            out_of_memory,
        ),
        (
            OpenFault::from(Error::SqliteFailure(ErrorCode::DiskFull)),
            store_failed,
        ),
        (OpenFault::from(Error::QueryReturnedNoRows), store_failed),
    ] {
        has_text(rt.alloc(), &rt, &fault, text)?;
    }
    Ok(())
}
