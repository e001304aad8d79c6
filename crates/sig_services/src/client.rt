//! The certificate authority.
ghost use Rattle.std.specs.Prelude.{◌≡◌, ◌++◌, codes, IfOk, Some, None, option_copied};
ghost use Rattle.serde_json.specs.Written.{compact_text};
ghost use Rattle.oci_protocol.specs.Runs.{Meets};
ghost use Rattle.service_models.specs.CertificateRequest.{request_written, signing_request_written};
ghost use Rattle.sig_services.specs.Client.{asked, certificate_in, headers_of, joined};
ghost use Rattle.json_values.specs.Refusals.{Matches};
ghost use Rattle.sig_services.specs.FulcioError.{is_memory};
ghost use Rattle.sig_services.specs.Client.{parted, request_of, response_in, response_of};
ghost use Rattle.sig_services.specs.AuthorityCauses.{AuthorityRefusedFor};
ghost use Rattle.sig_services.specs.Client as row;
ghost use Rattle.service_models.specs.Token.{token_of};

use crate::body::Body;
use crate::call::compact;
use crate::exchange::exchange;
use crate::fulcio_error::FulcioError;
use json_tables::read_plain;
use json_values::{Blob, Copied, List, Text, ToValue, copied};
use oci_transport::{Answer, Headers, Method, Request, Transport, with_header};
use service_models::{
    CertificateChain, CertificateRequest, CreateSigningCertificateRequest, KeyAlgorithm,
    SigningCertificate, SigningCertificateDetachedSCT, TokenProvider,
};
use std::alloc::{AllocError, Global};
use std::fmt;
use url::{ParseError, Url};

/// The URL of the public Fulcio instance.
pub const FULCIO_ROOT: &str = "https://fulcio.sigstore.dev/";

/// The path of certificates, version 1.
pub const SIGNING_CERT_PATH: &str = "api/v1/signingCert";

/// The path of certificates, version 2.
pub const SIGNING_CERT_V2_PATH: &str = "api/v2/signingCert";

// The greatest length of an answer's body in bytes.
const MAX_BODY_BYTES: u64 = 4294967295;

/// A certificate chain verbatim, in PEM.
#[derive(Debug, Drop)]
pub struct FulcioCert {
    pub text: Text,
}

/// A certificate, the certificates of its issuers, and its separate timestamp.
#[derive(Debug, Drop)]
pub struct CertificateResponse {
    /// The certificate in PEM.
    pub cert: Text,
    /// The further certificates, each the issuer of the one before it.
    pub chain: List<Text>,
    /// `None` if the timestamp is in the certificate.
    pub detached_sct: Option<SigningCertificateDetachedSCT>,
}

/// A client of a Fulcio instance.
#[derive(Drop)]
pub struct FulcioClient {
    root_url: Url,
    token_provider: TokenProvider,
}

impl FulcioCert {
    /// Returns the bytes of the text.
    pub fn as_ref(&self) -> &[u8]
        ensures { result.now ≡ self.now.text }
    {
        self.text.as_str().as_bytes()
    }
}

impl fmt::Display for FulcioCert {
    ghost use Rattle.std.specs.Prelude.{Some};
    ghost use Rattle.std.specs.Fmt.{DisplaysOnOk, WritesStyledOnOk};

    ghost output = { λ c. Some c.text };

    fn fmt<W: fmt::Write>(&self, f: &mut fmt::Formatter<W>) -> fmt::Result
        ensures writes { DisplaysOnOk W.write_str_gives f.old result (Some self.now.text) f.new }
        ensures styled { WritesStyledOnOk W.write_str_gives f.old result self.now.text f.new }
    {
        f.write_str(self.text.as_str())
    }
}

fn joined(alloc: Global, root: &Url, path: &str) -> Result<Url, FulcioError>
    ensures { Matches is_memory result (joined root.now path.now) }
{
    match root.join(path) {
        Ok(url) => Ok(url),
        Err(ParseError::OutOfMemory) => Err(FulcioError::WantOfMemory),
        Err(ParseError::Overflow) => Err(FulcioError::WantOfMemory),
        Err(_) => Err(FulcioError::Url(Text::new(alloc, path)?)),
    }
}

fn bearer(alloc: Global, token: &str) -> Result<Text, AllocError>
    ensures { IfOk result (λ value. value ≡ codes "Bearer " ++ token.now) }
{
    let mut value = Text::new(alloc, "Bearer ")?;
    value.push_str(token)?;
    Ok(value)
}

fn with_accept(headers: Headers, accept: Option<&str>) -> Result<Option<Headers>, AllocError>
    ensures { IfOk result (λ more. more ≡ row.with_accept (option_copied accept.entry) headers) }
{
    match accept {
        Some(accept) => with_header(headers, "accept", accept.as_bytes()),
        None => Ok(Some(headers)),
    }
}

#[tactic(auto, unfolding(crate::specs::Client::headers_with))]
fn headers_with(
    alloc: Global,
    credentials: &str,
    accept: Option<&str>,
) -> Result<Option<Headers>, AllocError>
    ensures { IfOk result (λ headers. headers
        ≡ row.headers_with credentials.now (option_copied accept.entry)) }
{
    let Some(headers) = with_header(Headers::new(alloc), "authorization", credentials.as_bytes())?
    else {
        return Ok(None);
    };
    let Some(headers) = with_header(headers, "content-type", b"application/json")? else {
        return Ok(None);
    };
    let headers = with_accept(headers, accept)?;
    Ok(headers)
}

fn headers_of(alloc: Global, token: &str, accept: Option<&str>) -> Result<Headers, FulcioError>
    ensures { Matches is_memory result (headers_of token.now (option_copied accept.entry)) }
{
    let credentials = bearer(alloc, token)?;
    match headers_with(alloc, credentials.as_str(), accept)? {
        Some(headers) => Ok(headers),
        None => Err(FulcioError::Header(Text::new(alloc, token)?)),
    }
}

#[tactic(auto, unfolding(crate::specs::Client::request_of))]
fn request_of(
    alloc: Global,
    root: &Url,
    path: &str,
    token: &str,
    accept: Option<&str>,
    body: Blob,
) -> Result<Request, FulcioError>
    ensures { Matches is_memory result
        (request_of root.now path.now token.now (option_copied accept.entry) body) }
{
    let url = joined(alloc, root, path)?;
    let headers = headers_of(alloc, token, accept)?;
    let url = Text::new(alloc, url.as_str())?;
    Ok(Request {
        method: Method::Post,
        url,
        headers,
        body,
    })
}

// Returns the answer to a request for certificates, with any status.
#[tactic(none)]
fn asked<T: Transport>(
    alloc: Global,
    transport: &mut T,
    root: &Url,
    path: &str,
    token: &str,
    accept: Option<&str>,
    body: Blob,
) -> Result<Answer, FulcioError>
    ensures { (k : Unit {0}) → Meets is_memory
        (asked root.now path.now token.now (option_copied accept.entry) body)
        (T.state transport.old) (T.state transport.new) k k result }
{
    let request = request_of(alloc, root, path, token, accept, body)?;
    let answer = exchange::<T, FulcioError>(alloc, transport, MAX_BODY_BYTES, &request)?;
    Ok(answer)
}

fn certificate_in(alloc: Global, answer: Answer) -> Result<FulcioCert, FulcioError>
    ensures { Matches is_memory result (certificate_in answer.body) }
{
    match Text::from_body(alloc, answer.body.as_slice())? {
        Some(text) => Ok(FulcioCert { text }),
        None => Err(FulcioError::Json(answer.body)),
    }
}

fn copies(alloc: Global, certificates: &[Text]) -> Result<List<Text>, AllocError>
    ensures { IfOk result (λ chain. chain ≡ certificates.now) }
{
    let mut chain = List::new(alloc);
    for certificate in certificates {
        chain.push(certificate.copy(alloc)?)?;
    }
    Ok(chain)
}

// Returns the first certificate, and the others.
fn parted(alloc: Global, chain: &CertificateChain) -> Result<(Text, List<Text>), FulcioError>
    ensures { Matches is_memory result (parted chain.now.certificates) }
{
    let Some((first, others)) = chain.certificates.as_slice().split_first() else {
        return Err(FulcioError::ChainTooShort);
    };
    if others.is_empty() {
        return Err(FulcioError::ChainTooShort);
    }
    let first = first.copy(alloc)?;
    let others = copies(alloc, others)?;
    Ok((first, others))
}

fn response_of(
    alloc: Global,
    certificate: SigningCertificate,
) -> Result<CertificateResponse, FulcioError>
    ensures { Matches is_memory result (response_of certificate) }
{
    match certificate {
        SigningCertificate::SignedCertificateDetachedSct(signed) => {
            let (cert, chain) = parted(alloc, &signed.chain)?;
            Ok(CertificateResponse {
                cert,
                chain,
                detached_sct: Some(signed),
            })
        }
        SigningCertificate::SignedCertificateEmbeddedSct(signed) => {
            let (cert, chain) = parted(alloc, &signed.chain)?;
            Ok(CertificateResponse {
                cert,
                chain,
                detached_sct: None,
            })
        }
    }
}

fn response_in(alloc: Global, answer: Answer) -> Result<CertificateResponse, FulcioError>
    ensures { Matches is_memory result (response_in answer.body) }
{
    let Some(certificate) = read_plain(alloc, answer.body.as_slice())? else {
        return Err(FulcioError::Json(answer.body));
    };
    let response = response_of(alloc, certificate)?;
    Ok(response)
}

fn request_text(
    alloc: Global,
    algorithm: KeyAlgorithm,
    public_key: &[u8],
    signature: &[u8],
) -> Result<Blob, AllocError>
    ensures { IfOk result (λ text. text
        ≡ compact_text (request_written algorithm public_key.now signature.now)) }
{
    let request = CertificateRequest {
        algorithm,
        public_key,
        signature,
    };
    let value = request.to_value(alloc)?;
    let text = compact(alloc, &value)?;
    Ok(text)
}

fn signing_request_text(alloc: Global, request: &[u8]) -> Result<Blob, AllocError>
    ensures { IfOk result (λ text. text ≡ compact_text (signing_request_written request.now)) }
{
    let request = CreateSigningCertificateRequest {
        certificate_signing_request: request,
    };
    let value = request.to_value(alloc)?;
    let text = compact(alloc, &value)?;
    Ok(text)
}

// Returns the token without the challenge.
fn shown_token(provider: &TokenProvider) -> &str
    ensures { result.now ≡ (token_of provider.now).0 }
{
    match provider {
        TokenProvider::Static(token, _challenge) => token.as_str(),
    }
}

impl FulcioClient {
    /// Creates a client of the Fulcio instance at this URL, for example `FULCIO_ROOT`.
    pub fn new(root_url: Url, token_provider: TokenProvider) -> FulcioClient
        ensures { result ≡ record { root_url = root_url; token_provider = token_provider } }
    {
        FulcioClient {
            root_url,
            token_provider,
        }
    }

    /// Asks for a certificate for this public key, in DER, with the key's signature over the challenge of the token.
    /// The response's status is ignored.
    #[tactic(none)]
    pub fn request_cert<T: Transport>(
        &self,
        alloc: Global,
        transport: &mut T,
        algorithm: KeyAlgorithm,
        public_key: &[u8],
        signature: &[u8],
    ) -> Result<FulcioCert, FulcioError>
        ensures run { (k : Unit {0}) → Meets is_memory
            (row.request_cert self.now algorithm public_key.now signature.now)
            (T.state transport.old) (T.state transport.new) k k result }
        ensures causes { AuthorityRefusedFor certificate_in self.now.root_url (codes "api/v1/signingCert")
            (token_of self.now.token_provider).0 None (T.state transport.old) (T.state transport.new) result }
    {
        let token = shown_token(&self.token_provider);
        let body = request_text(alloc, algorithm, public_key, signature)?;
        let answer = asked(
            alloc,
            transport,
            &self.root_url,
            SIGNING_CERT_PATH,
            token,
            None,
            body,
        )?;
        let cert = certificate_in(alloc, answer)?;
        Ok(cert)
    }

    /// Requests a certificate for this certificate signing request in PEM (RFC 2986), and sends this identity token.
    /// The status of the answer is ignored.
    #[tactic(none)]
    pub fn request_cert_v2<T: Transport>(
        &self,
        alloc: Global,
        transport: &mut T,
        request: &[u8],
        identity: &str,
    ) -> Result<CertificateResponse, FulcioError>
        ensures run { (k : Unit {0}) → Meets is_memory
            (row.request_cert_v2 self.now request.now identity.now)
            (T.state transport.old) (T.state transport.new) k k result }
        ensures causes { AuthorityRefusedFor response_in self.now.root_url (codes "api/v2/signingCert")
            identity.now (Some (codes "application/pem-certificate-chain"))
            (T.state transport.old) (T.state transport.new) result }
    {
        let body = signing_request_text(alloc, request)?;
        let answer = asked(
            alloc,
            transport,
            &self.root_url,
            SIGNING_CERT_V2_PATH,
            identity,
            Some("application/pem-certificate-chain"),
            body,
        )?;
        let response = response_in(alloc, answer)?;
        Ok(response)
    }
}

impl Copied for FulcioCert {
    fn copy(&self, alloc: Global) -> Result<FulcioCert, AllocError> {
        let text = self.text.copy(alloc)?;
        Ok(FulcioCert { text })
    }
}

impl Copied for CertificateResponse {
    fn copy(&self, alloc: Global) -> Result<CertificateResponse, AllocError> {
        copied!(
            alloc,
            self,
            CertificateResponse {
                cert,
                chain,
                detached_sct
            }
        )
    }
}
