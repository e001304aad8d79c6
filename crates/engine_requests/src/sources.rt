// Where a blob may be: at the registry by its digest, and at the URLs that its descriptor lists.
ghost use Rattle.std.specs.Prelude.{◌≡◌, IfOk};
ghost use Rattle.json_values.specs.Refusals.{Matches};
ghost use Rattle.engine_terms.specs.Error.{is_memory};
ghost use Rattle.engine_requests.specs.Sources.{by_scheme, place_of, asked_at};

use crate::requests::{MANIFEST_TYPES, request_of};
use engine_terms::{OciDistributionError, Settings};
use json_values::{List, Text};
use oci_manifests::OciDescriptor;
use oci_transport::{Method, Request};
use std::alloc::{AllocError, Global};
use url::{ParseError, Url};

/// What a descriptor states about where its blob is: its digest, and other URLs than the registry's, in order.
#[derive(Clone, Copy)]
pub struct LayerDescriptor<'a> {
    pub digest: &'a str,
    pub urls: Option<&'a List<Text>>,
}

/// What can be pulled as a blob: a digest alone, or a descriptor that may list URLs too.
pub trait AsLayerDescriptor {
    ghost use Rattle.engine_requests.specs.Sources.{Layer, layer_in};

    ghost layer: { Self → Layer };

    fn as_layer_descriptor(&self) -> LayerDescriptor<'_>
        ensures { layer_in result ≡ layer self.now };
}

impl AsLayerDescriptor for &str {
    ghost use Rattle.engine_requests.specs.Sources.{named};

    ghost layer = { λ digest. named digest.now };

    fn as_layer_descriptor(&self) -> LayerDescriptor<'_> {
        LayerDescriptor {
            digest: self,
            urls: None,
        }
    }
}

impl AsLayerDescriptor for LayerDescriptor<'_> {
    ghost use Rattle.engine_requests.specs.Sources.{layer_in};

    ghost layer = { λ x. layer_in x };

    fn as_layer_descriptor(&self) -> LayerDescriptor<'_> {
        *self
    }
}

impl AsLayerDescriptor for OciDescriptor {
    ghost use Rattle.engine_requests.specs.Sources.{described};

    ghost layer = { λ x. described x };

    fn as_layer_descriptor(&self) -> LayerDescriptor<'_> {
        LayerDescriptor {
            digest: self.digest.as_str(),
            urls: self.urls.as_ref(),
        }
    }
}

impl<L: AsLayerDescriptor> AsLayerDescriptor for &L {
    ghost layer = { λ x. L.layer x.now };

    fn as_layer_descriptor(&self) -> LayerDescriptor<'_> {
        (**self).as_layer_descriptor()
    }
}

/// Another place than the registry at which a blob may be, as a URL of its descriptor states.
#[derive(Drop)]
pub enum Place {
    Web(Url),
    /// The text of a URL that is not requested: it is malformed, or it has a user name or a password.
    Unfit(Text),
}

fn by_scheme(alloc: Global, text: &str, url: Url) -> Result<Option<Place>, AllocError>
    ensures { IfOk result (λ place. place ≡ by_scheme text.now url) }
{
    if url.scheme() != "http" && url.scheme() != "https" {
        return Ok(None);
    }
    if url.username().is_empty() && url.password().is_none() {
        return Ok(Some(Place::Web(url)));
    }
    let text = Text::new(alloc, text)?;
    Ok(Some(Place::Unfit(text)))
}

/// Returns the place that a listed URL names. `None` if its scheme is neither `http` nor `https`: it is skipped.
#[tactic(auto, unfolding(crate::specs::Sources::place_of))]
pub fn place_of(alloc: Global, text: &str) -> Result<Option<Place>, AllocError>
    ensures { IfOk result (λ place. place ≡ place_of text.now) }
{
    match Url::parse(alloc, text) {
        Ok(url) => by_scheme(alloc, text, url),
        Err(ParseError::OutOfMemory) => Err(AllocError),
        Err(ParseError::Overflow) => Err(AllocError),
        Err(_) => {
            let text = Text::new(alloc, text)?;
            Ok(Some(Place::Unfit(text)))
        }
    }
}

/// Returns the request for a blob at a place, without credentials. `UrlParseError` if the place is `Unfit`.
#[tactic(auto, unfolding(crate::specs::Sources::asked_at))]
pub fn asked_at(
    alloc: Global,
    settings: &Settings,
    place: Place,
) -> Result<Request, OciDistributionError>
    ensures { Matches is_memory result (asked_at settings.now place) }
{
    match place {
        Place::Web(url) => {
            let types = Some(MANIFEST_TYPES);
            let request = request_of(alloc, settings, Method::Get, &url, types, &None)?;
            Ok(request)
        }
        Place::Unfit(text) => Err(OciDistributionError::UrlParseError(text)),
    }
}
