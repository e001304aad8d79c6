// The unclosed containers of a formatter, and the texts it holds.
use crate::members::Members;
use crate::spot::Spot;
use json_values::Blob;

/// An unclosed container, or the level outside all containers.
#[derive(Drop)]
pub(crate) struct Container {
    pub(crate) spot: Spot,
    // Whether an object is unclosed, here or around.
    pub(crate) held: bool,
    // Whether an item of the array began.
    pub(crate) begun: bool,
    // The closed members of the object, the name of the member that is being written, and the text so far of
    // the enclosing member.
    pub(crate) members: Members,
    pub(crate) name: String,
    pub(crate) around: Blob,
}

#[derive(Drop)]
pub(crate) struct State {
    // The text so far of the member that is being written in the innermost unclosed object.
    pub(crate) text: Blob,
    pub(crate) inner: Container,
    pub(crate) outer: Vec<Container>,
}
