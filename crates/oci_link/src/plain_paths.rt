// Plain paths of a registry.
ghost use Rattle.oci_link.specs.PlainPaths.{PlainPathsRead};

use url::Url;

/// The law of plain paths, for a URL that `registry_url` returned: if the registry is a domain and the URL's text is
/// `scheme://registry/`, `request_url` parses `scheme://registry` followed by a plain path to a URL with this text,
/// and with the scheme, host and port of the registry's URL. A plain path has a slash before each segment; a segment
/// is a letter, a digit or an underscore and then letters, digits, underscores, dots, dashes and colons, and the last
/// one may be empty.
pub fn plain_paths_read(registry_url: &Url)
    ensures { PlainPathsRead registry_url.now }
{
    let _text = registry_url.as_str();
}
