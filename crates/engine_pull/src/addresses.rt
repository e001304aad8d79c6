// Builds the URLs of lists.
ghost use Rattle.std.specs.Prelude.{◌≡◌, ◌++◌, IfOk, OnOk, option_copied};
ghost use Rattle.oci_names.specs.Reference.{namespace_of};
ghost use Rattle.engine_requests.specs.Addresses.{mirrored};
ghost use Rattle.engine_pull.specs.Listings.{tags_text, catalog_text, with_count, with_last, with_page};

use engine_requests::{registry_text, with_pair};
use engine_terms::Call;
use json_values::{Text, write_decimal};
use oci_names::Reference;
use std::alloc::{AllocError, Global};
use url::Url;

// Adds the registry that a mirror stands in for to the query.
fn push_mirrored(text: &mut Text, image: &Reference) -> Result<(), AllocError>
    ensures { OnOk result (text.new ≡ text.old ++ mirrored (namespace_of image.now)) }
{
    match image.namespace() {
        Some(registry) => {
            text.push_str("?ns=")?;
            text.push_str(registry)?;
            Ok(())
        }
        None => Ok(()),
    }
}

/// Returns where the tags of the image's repository are listed.
pub(crate) fn tags_text(alloc: Global, call: &Call) -> Result<Text, AllocError>
    ensures { IfOk result (λ text. text ≡ tags_text call.now.settings.now call.now.image.now) }
{
    let mut text = registry_text(alloc, call.settings, call.image)?;
    text.push_str("/v2/")?;
    text.push_str(call.image.repository())?;
    text.push_str("/tags/list")?;
    push_mirrored(&mut text, call.image)?;
    Ok(text)
}

/// Returns where the repositories of the image's registry are listed.
pub(crate) fn catalog_text(alloc: Global, call: &Call) -> Result<Text, AllocError>
    ensures { IfOk result (λ text. text ≡ catalog_text call.now.settings.now call.now.image.now) }
{
    let mut text = registry_text(alloc, call.settings, call.image)?;
    text.push_str("/v2/")?;
    text.push_str("_catalog")?;
    Ok(text)
}

fn with_count(alloc: Global, url: Url, n: Option<usize>) -> Result<Url, AllocError>
    ensures { IfOk result (λ made. made ≡ with_count n url) }
{
    match n {
        Some(n) => {
            let digits = write_decimal(alloc, n as u64)?;
            let url = with_pair(url, "n", digits.as_str())?;
            Ok(url)
        }
        None => Ok(url),
    }
}

fn with_last(url: Url, last: Option<&str>) -> Result<Url, AllocError>
    ensures { IfOk result (λ made. made ≡ with_last (option_copied last.entry) url) }
{
    match last {
        Some(last) => {
            let url = with_pair(url, "last", last)?;
            Ok(url)
        }
        None => Ok(url),
    }
}

/// Returns the URL for a page of a list: at most `n` entries, after the one named `last`.
pub(crate) fn with_page(
    alloc: Global,
    url: Url,
    n: Option<usize>,
    last: Option<&str>,
) -> Result<Url, AllocError>
    ensures { IfOk result (λ made. made ≡ with_page n (option_copied last.entry) url) }
{
    let url = with_count(alloc, url, n)?;
    let url = with_last(url, last)?;
    Ok(url)
}
