// What was received of the last response.
ghost use Rattle.std.specs.Prelude.{◌≡◌, IfOk};
ghost use Rattle.oci_transport.specs.Link.{answer_of};

use engine_answers::Got;
use json_values::{Blob, Copied};
use oci_protocol::Reached;
use oci_transport::Answer;
use std::alloc::{AllocError, Global};

/// Returns the last response with its body, and leaves `reached` usable.
pub fn got_of(alloc: Global, reached: &Reached, body: Blob) -> Result<Got, AllocError>
    ensures { IfOk result (λ got. got ≡ record {
      url = reached.now.request.url;
      answer = answer_of reached.now.head body;
    }) }
{
    let url = reached.request.url.copy(alloc)?;
    let headers = reached.head.headers.copy(alloc)?;
    Ok(Got {
        url,
        answer: Answer {
            status: reached.head.status,
            headers,
            body,
        },
    })
}
