//! The writer of captures; the tool gathers them itself.
use etp_capture::{CaptureWriter, Frame, PutError};
use etp_outside::MemSink;
use etp_values::{Blob, List};
use std::alloc::Global;
use std::test::Fail;

/// Writes the magic and a message with a payload of this size, and returns how many bytes the sink has, or `None` after a fault.
fn written(alloc: Global, size: usize, fails: u64) -> Result<Option<usize>, Fail> {
    let frame = Frame {
        kind: 17,
        tag: 1,
        moment: 2,
        bytes: Blob::from_vec(vec![in alloc; 7u8; size]?)?,
    };
    let mut out = MemSink::new(Vec::new(alloc), List::from_vec([fails].to_vec(alloc)?));
    let mut writer = CaptureWriter::new(alloc);
    if writer.begin(&mut out) == Err(PutError::WriteFault) {
        return Ok(None);
    }
    match writer.put(&mut out, &frame) {
        Ok(()) => Ok(Some(out.as_bytes().len())),
        Err(_) => Ok(None),
    }
}

#[test]
fn a_fault_of_the_sink_is_answered(rt: HostRuntime) -> Result<(), Fail> {
    let a = rt.alloc();
    // a payload that is copied after its head is one write with it, and a longer one is a write of its own
    assert!(rt; written(a, 3, 9)? == Some(28));
    assert!(rt; written(a, 65_537, 9)? == Some(65_562));
    assert!(rt; written(a, 3, 1)? == None);
    assert!(rt; written(a, 3, 2)? == None);
    assert!(rt; written(a, 65_537, 3)? == None);
    Ok(())
}
