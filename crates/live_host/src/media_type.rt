// The media types of documents.
ghost use Rattle.std.specs.Prelude.{◌≡◌, IfOk};
ghost use Rattle.live_host.specs.Items.{media_type_of};

use json_tables::{read_plain_json, text_at};
use json_values::Text;
use std::alloc::{AllocError, Global};

/// Returns the media type in a document, or the default.
pub(crate) fn media_type_of(alloc: Global, usual: &str, bytes: &[u8]) -> Result<Text, AllocError>
    ensures { IfOk result (λ text. text ≡ media_type_of usual.now bytes.now) }
{
    let Some(json) = read_plain_json(alloc, bytes)? else {
        return Text::new(alloc, usual);
    };
    match text_at(json.value(), &["mediaType"]) {
        Some(text) => Text::new(alloc, text),
        None => Text::new(alloc, usual),
    }
}
