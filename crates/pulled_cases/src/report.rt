// The output of the pulls.
use json_values::Blob;

/// The output for the input, and whether it reports a refusal.
#[derive(Drop)]
pub struct Report {
    pub bytes: Blob,
    pub refused: bool,
}
