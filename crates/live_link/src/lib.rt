//! Frames between a program and its host, a line of JSON and then as many bytes as it says, and a transport over a source and
//! a sink: requests go out as frames, and their answers come in as frames.
#![tactic(auto)]

mod asking;
mod frame;
mod reading;
mod replies;
mod requests;
mod stage;
mod transport;
mod writing;

pub use frame::Frame;
pub use reading::{FrameError, MOST_BYTES, read_frame};
pub use stage::Breach;
pub use transport::StreamTransport;
pub use writing::write_frame;
