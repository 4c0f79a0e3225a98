//! Captures in files.
use etp_capture::{CaptureError, CaptureReader, Frame, kinds};
use etp_outside::StdSource;
use etp_schema::Side;
use std::{fs, io};

/// A frame, and its offset.
#[derive(Drop)]
pub(crate) struct Placed {
    pub(crate) offset: u64,
    pub(crate) frame: Frame,
}

/// What a capture has.
#[derive(Drop)]
pub(crate) struct Capture {
    pub(crate) frames: Vec<Placed>,
    /// Why nothing more could be read after the frames.
    pub(crate) fault: Option<CaptureError>,
}

/// Reads the capture in a file.
pub(crate) fn read_capture(rt: &HostRuntime, file: &str) -> io::Result<Capture> {
    let bytes = fs::read(rt, file)?;
    let mut input = StdSource::new(bytes.as_slice());
    let mut reader = CaptureReader::new();
    let mut frames = Vec::new(rt.alloc());
    let mut fault = None;
    for _ in 0..u64::MAX {
        let offset = reader.at().max(8);
        match reader.next(rt.alloc(), &mut input) {
            Ok(Some(frame)) => frames.push(Placed { offset, frame })?,
            Ok(None) => break,
            Err(error) => {
                fault = Some(error);
                break;
            }
        }
    }
    Ok(Capture { frames, fault })
}

/// The side that sent the frame's message, if it has one.
pub(crate) fn sender_of(frame: &Frame) -> Option<Side> {
    match frame.kind {
        kinds::IN => Some(Side::Client),
        kinds::OUT => Some(Side::Server),
        _ => None,
    }
}
