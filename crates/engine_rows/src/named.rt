// Whether a header names a digest.
use engine_answers::Got;
use json_values::Text;

/// Whether a response's header names a digest; if it does, the whole response.
#[derive(Drop)]
pub enum NamedAnswer {
    ByHeader(Text, Got),
    Unnamed,
}
