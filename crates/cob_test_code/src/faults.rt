//! What faults print.

use cob_records::RecordFault;
use std::alloc::{AllocError, Global};
use std::process::Abort;
use std::test::Fail;

/// A fault prints this code.
fn prints(
    rt: &impl Abort,
    alloc: Global,
    fault: RecordFault,
    code: &str,
) -> Result<(), AllocError> {
    let printed = format!(in alloc; "{fault}")?;
    assert_eq!(rt; printed.as_str(), code);
    Ok(())
}

#[test]
fn prints_each_fault_as_its_code(rt: HostRuntime) -> Result<(), Fail> {
    let alloc = rt.alloc();
    prints(&rt, alloc, RecordFault::Truncated { seen: 2 }, "F1 seen 2")?;
    prints(&rt, alloc, RecordFault::Descriptor, "F2")?;
    prints(&rt, alloc, RecordFault::Spanned, "F3")?;
    prints(&rt, alloc, RecordFault::Length, "F4")?;
    prints(&rt, alloc, RecordFault::ReadFailed, "F5")?;
    prints(&rt, alloc, RecordFault::WriteFailed { taken: 3 }, "F6")?;
    prints(&rt, alloc, RecordFault::TookNothing { taken: 3 }, "F7")?;
    Ok(())
}

#[test]
fn tells_how_many_bytes_were_taken(rt: HostRuntime) {
    assert_eq!(rt; RecordFault::TookNothing { taken: 3 }.taken(), 3);
    assert_eq!(rt; RecordFault::Truncated { seen: 2 }.taken(), 0);
}
