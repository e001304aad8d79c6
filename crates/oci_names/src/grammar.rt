// The words of the reference grammar.
ghost use Rattle.std.specs.Prelude.{◌≡◌, ◌<◌, option_copied};
ghost use Rattle.std.specs.List.{list_all};
ghost use Rattle.oci_names.specs.Grammar as words;

/// Splits a text at the first such character: what comes before it, and what follows it if it is present.
pub fn cut(text: &str, at: char) -> (&str, Option<&str>)
    requires { at < 128 }
    ensures before { result.0.now ≡ words.before at text.now }
    ensures after { option_copied result.1 ≡ words.after at text.now }
{
    match text.split_once(at) {
        Some((before, after)) => (before, Some(after)),
        None => (text, None),
    }
}

fn is_dashes(gap: &[u8]) -> bool
    ensures { result ≡ words.is_dashes gap.now }
{
    gap.iter().all(|b| *b == b'-')
}

fn is_domain_component(component: &[u8]) -> bool
    ensures { result ≡ words.is_domain_component component.now }
{
    let (Some(first), Some(last)) = (component.first(), component.last()) else {
        return false;
    };
    first.is_ascii_alphanumeric()
        && last.is_ascii_alphanumeric()
        && component
            .split(|b| b.is_ascii_alphanumeric())
            .all(is_dashes)
}

fn is_host(host: &[u8]) -> bool
    ensures { result ≡ words.is_host host.now }
{
    host.split(|b| *b == b'.').all(is_domain_component)
}

fn is_digits(port: &[u8]) -> bool
    ensures { result ≡ words.is_digits port.now }
{
    !port.is_empty() && port.iter().all(|b| b.is_ascii_digit())
}

/// Returns whether the text is a host, or a host with a port.
pub fn is_domain(domain: &str) -> bool
    ensures { result ≡ words.is_domain domain.now }
{
    let (host, port) = cut(domain, ':');
    is_host(host.as_bytes())
        && match port {
            Some(port) => is_digits(port.as_bytes()),
            None => true,
        }
}

fn is_path_letter(b: &u8) -> bool
    ensures { result ≡ words.is_path_letter b.now }
{
    b.is_ascii_lowercase() || b.is_ascii_digit()
}

fn is_path_separator(gap: &[u8]) -> bool
    ensures { result ≡ words.is_path_separator gap.now }
{
    matches!(gap, b"." | b"_" | b"__") || is_dashes(gap)
}

fn is_path_component(component: &[u8]) -> bool
    ensures { result ≡ words.is_path_component component.now }
{
    let (Some(first), Some(last)) = (component.first(), component.last()) else {
        return false;
    };
    is_path_letter(first)
        && is_path_letter(last)
        && component.split(is_path_letter).all(is_path_separator)
}

/// Returns whether the text is a repository's path (OCI distribution specification, "Pulling manifests").
pub fn is_path(path: &str) -> bool
    ensures { result ≡ words.is_path path.now }
{
    path.as_bytes().split(|b| *b == b'/').all(is_path_component)
}

fn is_tag_start(b: u8) -> bool
    ensures { result ≡ words.is_tag_start b }
{
    b.is_ascii_alphanumeric() || b == b'_'
}

fn is_tag_byte(b: u8) -> bool
    ensures { result ≡ words.is_tag_byte b }
{
    is_tag_start(b) || b == b'.' || b == b'-'
}

fn are_tag_bytes(bytes: &[u8]) -> bool
    ensures { result ≡ list_all words.is_tag_byte bytes.now }
{
    bytes.iter().all(|b| is_tag_byte(*b))
}

/// Returns whether the text is a tag (OCI distribution specification, "Pulling manifests").
pub fn is_tag(tag: &str) -> bool
    ensures { result ≡ words.is_tag tag.now }
{
    match tag.as_bytes().split_first() {
        Some((first, rest)) => { is_tag_start(*first) && rest.len() <= 127 && are_tag_bytes(rest) }
        None => false,
    }
}

fn is_algorithm_separator(gap: &[u8]) -> bool
    ensures { result ≡ words.is_algorithm_separator gap.now }
{
    matches!(gap, [] | [b'+' | b'.' | b'_' | b'-'])
}

fn is_algorithm(algorithm: &[u8]) -> bool
    ensures { result ≡ words.is_algorithm algorithm.now }
{
    let (Some(first), Some(last)) = (algorithm.first(), algorithm.last()) else {
        return false;
    };
    first.is_ascii_alphanumeric()
        && last.is_ascii_alphanumeric()
        && algorithm
            .split(|b| b.is_ascii_alphanumeric())
            .all(is_algorithm_separator)
}

fn is_hexadecimal(digits: &[u8]) -> bool
    ensures { result ≡ words.is_hexadecimal digits.now }
{
    !digits.is_empty() && digits.iter().all(|b| b.is_ascii_hexdigit())
}

/// Returns whether the text is a digest (OCI image specification, descriptor.md, "Digests").
pub fn is_digest(digest: &str) -> bool
    ensures { result ≡ words.is_digest digest.now }
{
    let (algorithm, digits) = cut(digest, ':');
    is_algorithm(algorithm.as_bytes())
        && match digits {
            Some(digits) => is_hexadecimal(digits.as_bytes()),
            None => false,
        }
}
