//! Requests, answers, and the transports that carry them.
#![tactic(auto)]

mod body;
mod headers;
mod message;
mod recorded;
mod redirects;
mod script;
mod transport;
mod urls;

pub use body::{BodyError, read_body};
pub use headers::{
    DIGEST_HEADER, FieldValue, HeaderError, Headers, header_text, headers_from, with_header,
};
pub use message::{Answer, AnswerHead, Conversation, Exchange, Method, Request};
pub use recorded::Recorded;
pub use redirects::redirected;
pub use script::Script;
pub use transport::{LinkError, Transport};
pub use urls::{UrlError, registry_url, request_url, targets};
