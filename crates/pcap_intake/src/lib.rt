//! Captures of packets, as lines of a trace.
//!
//! A capture in the classic format of libpcap (a file header, and records with a time and the bytes of a frame)
//! becomes the `packet` and `fwd` lines of one router, with a `tick` where seconds have passed. Its central contract
//! is that of `capture_lines`: which captures are refused, and of the others the exact text and counts. Read
//! `specs/Capture`, `specs/Frames`, `specs/Text` and `specs/Intake` first, then `intake`.
#![tactic(auto)]

mod counts;
mod frames;
mod header;
mod intake;
mod kind;
pub mod laws;
mod records;
mod refused;
mod writing;

pub use counts::Counts;
pub use frames::{FrameKind, PacketFront, judged, packet_in};
pub use header::file_header;
pub use intake::{CaptureLines, capture_lines};
pub use kind::{CaptureKind, Endian, LinkLayer, Resolution};
pub use records::{FirstRecord, next_record};
pub use refused::{CaptureRefused, CaptureWhy};
