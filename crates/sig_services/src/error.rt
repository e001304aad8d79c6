ghost use Rattle.std.specs.Prelude.{◌≡◌};
ghost use Rattle.sig_services.specs.declared.error.Error.TheVariants.{WantOfMemory as out_of_memory};

use json_values::{Blob, Copied, Text, copied};
use std::alloc::{AllocError, Global};

/// An answer with a 4xx or 5xx status.
#[derive(Debug, Drop)]
pub struct ResponseContent<E> {
    /// From 400 to 599.
    pub status: u16,
    /// The body.
    pub content: Blob,
    /// The parsed body; `None` if it is not JSON, or contains a float.
    pub entity: Option<E>,
}

/// Why a call to Rekor failed.
#[derive(Debug, Drop, thiserror::Error)]
pub enum Error<E> {
    /// The transport failed: its fault count increased.
    #[error("the connection to the log failed: send the request again")]
    Link,
    /// The body of the answer has more than `max_body_bytes` bytes.
    #[error("the log's response is longer than the configuration allows: raise the limit or request less")]
    BodyTooLong,
    /// This text is not the URL of a request.
    #[error("the URL of the request is malformed: check the base path")]
    Url(Text),
    /// This user agent is not a valid header value.
    #[error("the user agent is not a valid header value: remove control characters")]
    Header(Text),
    /// This body of a successful answer is malformed.
    #[error("the log's response is malformed: check whether the base path is that of a log")]
    Json(Blob),
    /// The status is from 400 to 599.
    #[error("the log refused the request: read the status and the content of its response")]
    ResponseError(ResponseContent<E>),
    /// The allocator is out of memory.
    #[error("out of memory: free some and try again")]
    WantOfMemory,
}

impl<E> From<AllocError> for Error<E> {
    ghost from_gives = { λ _ e. e ≡ out_of_memory };

    fn from(_: AllocError) -> Error<E> {
        Error::WantOfMemory
    }
}

impl<E: Copied + Drop> Copied for ResponseContent<E> {
    fn copy(&self, alloc: Global) -> Result<ResponseContent<E>, AllocError> {
        copied!(
            alloc,
            self,
            ResponseContent {
                status,
                content,
                entity
            }
        )
    }
}

impl<E: Copied + Drop> Copied for Error<E> {
    fn copy(&self, alloc: Global) -> Result<Error<E>, AllocError> {
        let error = match self {
            Error::Link => Error::Link,
            Error::BodyTooLong => Error::BodyTooLong,
            Error::Url(text) => Error::Url(text.copy(alloc)?),
            Error::Header(text) => Error::Header(text.copy(alloc)?),
            Error::Json(body) => Error::Json(body.copy(alloc)?),
            Error::ResponseError(content) => Error::ResponseError(content.copy(alloc)?),
            Error::WantOfMemory => Error::WantOfMemory,
        };
        Ok(error)
    }
}
