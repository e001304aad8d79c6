// Header fields of requests and answers.
ghost use Rattle.std.specs.Prelude.{◌≡◌, ◌<◌, ◌≤◌, ◌↔◌, ◌-◌, ◌^◌, ◌∷◌, ◌++◌, [], List, true, false};
ghost use Rattle.std.specs.Prelude.{IfOk, OnOk, OnErr, IsErrOf, All, slice_get, sum_by, length, min, nat_le, unwrap_or};
ghost use Rattle.std.specs.Prelude.{IsTrue, map as each};
ghost use Rattle.std.specs.Option.{option_copied};
ghost use Rattle.std.specs.Ordering.{eq_by_cmp};
ghost use Rattle.std.specs.FinMap as map;
ghost use Rattle.std.specs.FinMap.Entries.{find};
ghost use Rattle.http_header.specs.FieldName.{IsFieldName, IsHeaderName, is_header_name};
ghost use Rattle.http_header.specs.Token.{lowercase};
ghost use Rattle.json_values.specs.Places.{by_bytes};
ghost use Rattle.oci_transport.specs.Headers.{AreFields, values_of, first_of, with_value, added, without, held};
ghost use Rattle.oci_transport.specs.Headers.{is_header_value, is_text, header_text, kept_fields};
ghost use Rattle.oci_transport.specs.Headers.{with_header, with_named, with_headers};
ghost use Rattle.oci_transport.specs.declared.headers.HeaderError.TheVariants.{WantOfMemory as out_of_memory};

use http_header::{HeaderName, HeaderNameError};
use json_values::{Blob, Copied, List, Text, TextMap};
use std::alloc::{AllocError, AllocFailed, Global};
use std::marker::Model;
use thiserror::Error;

/// The response header with the digest of the body (OCI distribution specification, "Pulling manifests").
pub const DIGEST_HEADER: &str = "docker-content-digest";

/// Header fields (RFC 9110, section 5): at most 1000 values. A contract sees a map from each name, which is a field
/// name in lower case, to its values in order. Lookup ignores the case of the name.
#[derive(Drop)]
pub struct Headers {
    alloc: Global,
    fields: TextMap<List<Blob>>,
}

impl Model for Headers {
    ghost use Rattle.std.specs.Prelude.{ℕ, List};
    ghost use Rattle.std.specs.FinMap.{FinMap, code};
    ghost use Rattle.std.specs.Coded.{coded_ℕ, coded_list};
    ghost use Rattle.json_values.specs.Places.{by_bytes};

    ghost Value = { FinMap by_bytes (List (List ℕ)) };

    ghost coded = { code (coded_list coded_ℕ) (coded_list (coded_list coded_ℕ)) };

    ghost use Rattle.oci_transport.specs.Headers.{AreFields};

    ghost view = { λ h. h.fields };

    ghost invariant = { λ h. AreFields h.fields };
}

/// Why a header could not be added.
#[derive(Clone, Copy, Debug, PartialEq, Eq, Error)]
pub enum HeaderError {
    /// The name is not a field name (RFC 9110, section 5.1).
    #[error("the name is not a header name: use only letters, digits and marks of a token")]
    BadName,
    /// The value has a control byte other than a tab.
    #[error("the header value has a control byte: use none except the tab")]
    BadValue,
    /// There are 1000 values already.
    #[error("there are 1000 header values already: remove some")]
    TooMany,
    /// The allocator is out of memory.
    #[error("out of memory: free some and try again")]
    WantOfMemory,
}

impl Copied for HeaderError {
    fn copy(&self, _alloc: Global) -> Result<HeaderError, AllocError> {
        Ok(*self)
    }
}

impl From<AllocError> for HeaderError {
    ghost from_gives = { λ _ e. e ≡ out_of_memory };

    fn from(_: AllocError) -> Self {
        HeaderError::WantOfMemory
    }
}

impl<T: Drop> From<AllocFailed<T>> for HeaderError {
    ghost from_gives = { λ _ e. e ≡ out_of_memory };

    fn from(_: AllocFailed<T>) -> Self {
        HeaderError::WantOfMemory
    }
}

impl Headers {
    /// Returns headers without values.
    pub fn new(alloc: Global) -> Headers
        ensures { result ≡ map.empty }
    {
        Headers {
            alloc,
            fields: TextMap::new(alloc),
        }
    }

    /// Adds a value after the others of its name.
    pub fn add(&mut self, name: &str, value: &[u8]) -> Result<(), HeaderError>
        ensures ok { OnOk result (self.new ≡ added self.old name.now value.now) }
        ensures err { OnErr result (self.new ≡ self.old) }
        ensures bad_name { IsErrOf result HeaderError.BadName ↔ ¬ (IsFieldName name.now) }
        ensures bad_value { IsErrOf result HeaderError.BadValue
            → is_header_value value.now ≡ false }
        ensures too_many { IsErrOf result HeaderError.TooMany
            → (is_header_value value.now ≡ true) × (1000 ≤ held self.old) }
        ensures accepted { OnOk result
            ((is_header_value value.now ≡ true) × (held self.old < 1000)) }
    {
        let name = field_name(self.alloc, name)?;
        if !is_header_value(value) {
            return Err(HeaderError::BadValue);
        }
        if is_full(self.fields.entries()) {
            return Err(HeaderError::TooMany);
        }
        insert(self.alloc, &mut self.fields, name, value)?;
        Ok(())
    }

    /// Returns the first value of a name.
    pub fn first(&self, name: &str) -> Option<&[u8]>
        ensures { option_copied result ≡ first_of name.now self.now }
    {
        self.value_at(name, 0)
    }

    /// Returns the name, in lower case, at this index in the order of the names' bytes.
    pub fn name_at(&self, place: usize) -> Option<&str>
        ensures name { option_copied result ≡ slice_get (map.keys self.now) place }
        ensures fields { AreFields self.now }
    {
        match self.fields.name_at(place) {
            Some(name) => Some(name.as_str()),
            None => None,
        }
    }

    /// Returns the value of a name at this index, counted from 0.
    pub fn value_at(&self, name: &str, place: usize) -> Option<&[u8]>
        ensures { option_copied result ≡ slice_get (values_of name.now self.now) place }
    {
        match self.values(name) {
            Some(values) => match values.as_slice().get(place) {
                Some(value) => Some(value.as_slice()),
                None => None,
            },
            None => None,
        }
    }

    fn values(&self, name: &str) -> Option<&List<Blob>>
        ensures { option_copied result ≡ map.get self.now (lowercase name.now) }
    {
        values_in(self.fields.entries(), name)
    }

    /// Copies the headers without the values of this name.
    pub fn without(&self, alloc: Global, name: &str) -> Result<Headers, AllocError>
        ensures { IfOk result (λ headers. headers ≡ without name.now self.now) }
    {
        let fields = others(alloc, self.fields.entries(), name)?;
        Ok(Headers { alloc, fields })
    }
}

impl Copied for Headers {
    fn copy(&self, alloc: Global) -> Result<Headers, AllocError> {
        Ok(Headers {
            alloc,
            fields: self.fields.copy(alloc)?,
        })
    }
}

/// Returns the headers with one more field, or `None` if the value is not a valid header value (RFC 9110, section 5.5)
/// or there are 1000 values already. The name is a field name in lower case.
pub fn with_header(
    headers: Headers,
    name: &str,
    value: &[u8],
) -> Result<Option<Headers>, AllocError>
    requires { IsTrue (is_header_name name.now) }
    ensures { IfOk result (λ more. more ≡ with_header headers name.now value.now) }
{
    let more = with_named(headers, name, value)?;
    Ok(more)
}

/// What can be the value of a field in a list of fields.
pub trait FieldValue {
    ghost use Rattle.std.specs.Prelude.{ℕ, List};

    /// The value's bytes.
    ghost bytes: { Self → List ℕ };

    /// Returns the bytes.
    fn bytes(&self) -> &[u8]
        ensures { result.now ≡ bytes self.now };
}

impl FieldValue for Text {
    ghost bytes = { λ text. text };

    fn bytes(&self) -> &[u8] {
        self.as_str().as_bytes()
    }
}

impl FieldValue for Blob {
    ghost bytes = { λ bytes. bytes };

    fn bytes(&self) -> &[u8] {
        self.as_slice()
    }
}

/// Returns headers of these fields, added one after another; or `None` if a name is not a field name (RFC 9110, section
/// 5.1), a value is not a valid header value (section 5.5), or there are more than 1000.
pub fn headers_from<V: FieldValue>(
    alloc: Global,
    fields: &[(Text, V)],
) -> Result<Option<Headers>, AllocError>
    ensures { IfOk result (λ headers.
        headers ≡ with_headers map.empty (each (λ field. (field.0, V.bytes field.1)) fields.now)) }
{
    let mut headers = Headers::new(alloc);
    for (name, value) in fields {
        match with_named(headers, name.as_str(), value.bytes())? {
            Some(more) => headers = more,
            None => return Ok(None),
        }
    }
    Ok(Some(headers))
}

// Returns the headers with one more field, if it is one.
fn with_named(mut headers: Headers, name: &str, value: &[u8]) -> Result<Option<Headers>, AllocError>
    ensures { IfOk result (λ more. more ≡ with_named headers name.now value.now) }
{
    match headers.add(name, value) {
        Ok(()) => Ok(Some(headers)),
        Err(HeaderError::WantOfMemory) => Err(AllocError),
        Err(HeaderError::BadName) => Ok(None),
        Err(HeaderError::BadValue) => Ok(None),
        Err(HeaderError::TooMany) => Ok(None),
    }
}

/// Returns a header's value as text, if each byte is a tab, a space or visible ASCII.
pub fn header_text(value: &[u8]) -> Option<&str>
    ensures { option_copied result ≡ header_text value.now }
{
    if !is_text(value) {
        return None;
    }
    match std::str::from_utf8(value) {
        Ok(text) => Some(text),
        Err(_) => None,
    }
}

fn is_text(value: &[u8]) -> bool
    ensures { result ≡ is_text value.now }
{
    value
        .iter()
        .all(|byte| *byte == 9 || (32 <= *byte && *byte <= 126))
}

fn is_header_value(value: &[u8]) -> bool
    ensures { result ≡ is_header_value value.now }
{
    value
        .iter()
        .all(|byte| (*byte == 9 || 32 <= *byte) && !(*byte == 127))
}

// Returns the name in lower case.
fn field_name(alloc: Global, name: &str) -> Result<Text, HeaderError>
    ensures ok { IfOk result (λ field. field ≡ lowercase name.now) }
    ensures lower { IfOk result (λ field. IsHeaderName field) }
    ensures bad_name { IsErrOf result HeaderError.BadName ↔ ¬ (IsFieldName name.now) }
    ensures bad_value { IsErrOf result HeaderError.BadValue → ⊥ }
    ensures too_many { IsErrOf result HeaderError.TooMany → ⊥ }
{
    match HeaderName::from_bytes(alloc, name.as_bytes()) {
        Ok(field) => {
            let field = Text::new(alloc, field.as_str())?;
            Ok(field)
        }
        Err(HeaderNameError::Invalid) => Err(HeaderError::BadName),
        Err(HeaderNameError::OutOfMemory) => Err(HeaderError::WantOfMemory),
    }
}

// Adds a value after the others of a name in lower case.
fn insert(
    alloc: Global,
    fields: &mut TextMap<List<Blob>>,
    name: Text,
    value: &[u8],
) -> Result<(), AllocError>
    requires lower { IsHeaderName name }
    requires are { AreFields fields.old }
    requires few { held fields.old < 1000 }
    ensures ok { OnOk result (fields.new ≡ with_value fields.old name value.now) }
    ensures err { OnErr result (fields.new ≡ fields.old) }
    ensures are { AreFields fields.new }
{
    let values = with_last(alloc, fields.get(name.as_str()), value)?;
    fields.insert(name, values)?;
    Ok(())
}

// Appends a value to these.
fn with_last(
    alloc: Global,
    values: Option<&List<Blob>>,
    value: &[u8],
) -> Result<List<Blob>, AllocError>
    ensures { IfOk result (λ more. more ≡ unwrap_or (option_copied values.entry) [] ++ value.now ∷ []) }
{
    let mut more = match values {
        Some(values) => values.copy(alloc)?,
        None => List::new(alloc),
    };
    more.push(Blob::new(alloc, value)?)?;
    Ok(more)
}

// Returns the number of values, saturating.
fn count_values(fields: &[(Text, List<Blob>)]) -> usize
    ensures { result ≡ min (sum_by (λ e. length e.1) fields.now) (2 ^ 64 - 1) }
{
    let mut count: usize = 0;
    for field in fields {
        count = count.saturating_add(field.1.as_slice().len());
    }
    count
}

fn is_full(fields: &[(Text, List<Blob>)]) -> bool
    ensures { result ≡ nat_le 1000 (sum_by (λ e. length e.1) fields.now) }
{
    count_values(fields) >= 1000
}

// Returns whether a name in lower case is this one, ignoring case.
fn is_named(lower: &str, name: &str) -> bool
    requires { IsHeaderName lower.now }
    ensures { result ≡ eq_by_cmp by_bytes (lowercase name.now) lower.now }
{
    name.eq_ignore_ascii_case(lower)
}

// Returns the values of a name.
fn values_in<'a>(fields: &'a [(Text, List<Blob>)], name: &str) -> Option<&'a List<Blob>>
    requires { All (λ e. IsHeaderName e.0) fields.now }
    ensures { option_copied result ≡ find by_bytes (lowercase name.now) fields.now }
{
    for field in fields {
        if is_named(field.0.as_str(), name) {
            return Some(&field.1);
        }
    }
    None
}

// Returns the fields with other names, starting at the last one.
fn others(
    alloc: Global,
    fields: &[(Text, List<Blob>)],
    name: &str,
) -> Result<TextMap<List<Blob>>, AllocError>
    requires { All (λ e. IsHeaderName e.0) fields.now }
    ensures { IfOk result (λ kept. kept ≡ kept_fields name.now fields.now) }
{
    let mut kept = TextMap::new(alloc);
    let mut left = fields.len();
    while left > 0 {
        left -= 1;
        let field = &fields[left];
        if !is_named(field.0.as_str(), name) {
            let (field, values) = field.copy(alloc)?;
            kept.insert(field, values)?;
        }
    }
    Ok(kept)
}
