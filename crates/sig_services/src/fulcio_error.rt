ghost use Rattle.std.specs.Prelude.{◌≡◌, codes};
ghost use Rattle.sig_services.specs.FulcioError.{message_of};
ghost use Rattle.sig_services.specs.declared.fulcio_error.FulcioError.TheVariants.{WantOfMemory as out_of_memory};

use crate::exchange::Refusal;
use json_values::{Blob, Copied, Text};
use std::alloc::{AllocError, Global};
use std::error::Error;
use std::fmt;

/// Why a call to Fulcio failed.
#[derive(Drop)]
pub enum FulcioError {
    /// The transport failed: its fault count increased.
    Link,
    /// The body of the response has more than 4294967295 bytes.
    BodyTooLong,
    /// This path does not join to the root URL.
    Url(Text),
    /// This token is not a valid header value.
    Header(Text),
    /// This body of a response is malformed.
    Json(Blob),
    /// The chain has fewer than two certificates.
    ChainTooShort,
    /// The allocator had no memory.
    WantOfMemory,
}

impl FulcioError {
    fn message(&self) -> &'static str
        ensures { result.now ≡ message_of self.now }
    {
        match self {
            FulcioError::Link => {
                "the connection to the certificate authority failed: send the request again"
            }
            FulcioError::BodyTooLong => {
                "the response has more than 4294967295 bytes: check that the root URL is an authority's"
            }
            FulcioError::Url(_) => {
                "the path does not join to the root URL: use a root URL that has a host"
            }
            FulcioError::Header(_) => {
                "the token is not a valid header value: remove its control characters"
            }
            FulcioError::Json(_) => "the response is malformed: inspect its body",
            FulcioError::ChainTooShort => {
                "the chain has fewer than two certificates: ask the authority for the issuer's too"
            }
            FulcioError::WantOfMemory => "out of memory: free some and try again",
        }
    }
}

/// The message alone, whatever the formatter: a token is never printed.
impl fmt::Debug for FulcioError {
    ghost use Rattle.std.specs.Prelude.{Some};
    ghost use Rattle.std.specs.Fmt.{DisplaysOnOk, WritesStyledOnOk};

    ghost debug_output = { λ e. Some (message_of e) };

    fn fmt<W: fmt::Write>(&self, f: &mut fmt::Formatter<W>) -> fmt::Result
        ensures writes { DisplaysOnOk W.write_str_gives f.old result (Some (message_of self.now)) f.new }
        ensures styled { WritesStyledOnOk W.write_str_gives f.old result (message_of self.now) f.new }
    {
        f.write_str(self.message())
    }
}

/// What was refused, and what to do; a token is never printed.
impl fmt::Display for FulcioError {
    ghost use Rattle.std.specs.Prelude.{Some};
    ghost use Rattle.std.specs.Fmt.{DisplaysOnOk, WritesStyledOnOk};

    ghost output = { λ e. Some (message_of e) };

    fn fmt<W: fmt::Write>(&self, f: &mut fmt::Formatter<W>) -> fmt::Result
        ensures writes { DisplaysOnOk W.write_str_gives f.old result (Some (message_of self.now)) f.new }
        ensures styled { WritesStyledOnOk W.write_str_gives f.old result (message_of self.now) f.new }
    {
        f.write_str(self.message())
    }
}

impl Error for FulcioError {}

impl From<AllocError> for FulcioError {
    ghost from_gives = { λ _ e. e ≡ out_of_memory };

    fn from(_: AllocError) -> FulcioError {
        FulcioError::WantOfMemory
    }
}

impl Copied for FulcioError {
    fn copy(&self, alloc: Global) -> Result<FulcioError, AllocError> {
        let error = match self {
            FulcioError::Link => FulcioError::Link,
            FulcioError::BodyTooLong => FulcioError::BodyTooLong,
            FulcioError::Url(path) => FulcioError::Url(path.copy(alloc)?),
            FulcioError::Header(token) => FulcioError::Header(token.copy(alloc)?),
            FulcioError::Json(body) => FulcioError::Json(body.copy(alloc)?),
            FulcioError::ChainTooShort => FulcioError::ChainTooShort,
            FulcioError::WantOfMemory => FulcioError::WantOfMemory,
        };
        Ok(error)
    }
}

impl Refusal for FulcioError {
    ghost use Rattle.std.specs.Prelude.{refl};
    ghost use Rattle.sig_services.specs.FulcioError.{is_memory};
    ghost use Rattle.sig_services.specs.declared.fulcio_error.FulcioError.TheVariants as refusal;

    ghost link = { refusal.Link };

    ghost too_long = { refusal.BodyTooLong };

    ghost memory = { refusal.WantOfMemory };

    ghost is_memory = { is_memory };

    ghost not_link = { refl };

    ghost not_long = { refl };

    ghost of_memory = { refl };

    fn link() -> FulcioError {
        FulcioError::Link
    }

    fn too_long() -> FulcioError {
        FulcioError::BodyTooLong
    }

    fn memory() -> FulcioError {
        FulcioError::WantOfMemory
    }
}
