//! Replies, and how each is sent.

ghost use Rattle.std.specs.Prelude.{◌≡◌, ◌∷◌, ◌++◌, OnOk};
ghost use Rattle.http_header.specs.FieldValue.{plain_value};
ghost use Rattle.http_server.specs.Response.{IsBlank, fields_of};
ghost use Rattle.gw_page.specs.Replies as model;
ghost use Rattle.gw_page.specs.Replies.{IsSent};

use crate::html::PAGE_POLICY;
use bytes::BufMut;
use http::{HeaderValue, StatusCode, header};
use http_server::Response;
use std::alloc::AllocError;

/// What became of a request.
#[derive(Clone, Copy, PartialEq, Eq)]
pub enum Outcome {
    /// It is answered: 200.
    Answered,
    /// Its words name no command: 400.
    Malformed,
    /// Nothing has its path: 404.
    Unknown,
    /// Its path has the page, which is got: 405.
    GetAlone,
    /// Its path has a command, which is posted: 405.
    PostAlone,
    /// The model, or what is asked of it, is refused: 422.
    Refused,
    /// A limit was met, or memory ran out: 503.
    Unavailable,
}

/// What kind of text a reply has.
#[derive(Clone, Copy, PartialEq, Eq)]
pub enum Kind {
    /// The page.
    Html,
    /// Text to be read.
    Plain,
    /// Records with commas.
    Csv,
    /// A picture.
    Svg,
}

/// What a request is answered.
#[derive(Drop)]
pub struct Reply {
    /// What became of it.
    pub outcome: Outcome,
    /// What kind of text it is answered.
    pub kind: Kind,
    /// The text.
    pub text: Vec<u8>,
}

/// What a browser may load and run for an answer: nothing.
const ANSWER_POLICY: &str = "default-src 'none'; frame-ancestors 'none'; sandbox";

/// The status of an outcome.
fn status_of(outcome: Outcome) -> StatusCode
    ensures { result ≡ model.status_of outcome }
{
    match outcome {
        Outcome::Answered => StatusCode::OK,
        Outcome::Malformed => StatusCode::BAD_REQUEST,
        Outcome::Unknown => StatusCode::NOT_FOUND,
        Outcome::GetAlone | Outcome::PostAlone => StatusCode::METHOD_NOT_ALLOWED,
        Outcome::Refused => StatusCode::UNPROCESSABLE_ENTITY,
        Outcome::Unavailable => StatusCode::SERVICE_UNAVAILABLE,
    }
}

/// The content type of a kind of text.
fn type_of(kind: Kind) -> HeaderValue
    ensures { result ≡ plain_value (model.type_of kind) }
{
    match kind {
        Kind::Html => HeaderValue::from_static("text/html; charset=utf-8"),
        Kind::Plain => HeaderValue::from_static("text/plain; charset=utf-8"),
        Kind::Csv => HeaderValue::from_static("text/csv; charset=utf-8"),
        Kind::Svg => HeaderValue::from_static("image/svg+xml"),
    }
}

/// What a browser may load and run for a kind of text.
fn policy_of(kind: Kind) -> HeaderValue
    ensures { result ≡ plain_value (model.policy_of kind) }
{
    match kind {
        Kind::Html => HeaderValue::from_static(PAGE_POLICY),
        Kind::Plain | Kind::Csv | Kind::Svg => HeaderValue::from_static(ANSWER_POLICY),
    }
}

/// Adds the methods that a path has, where another was tried.
fn put_allowed(response: &mut Response, outcome: Outcome) -> Result<(), AllocError>
    ensures headers { OnOk result
        (fields_of response.new ≡ fields_of response.old ++ model.allowed_by outcome) }
    ensures status { response.new.status ≡ response.old.status }
    ensures body { response.new.body ≡ response.old.body }
{
    match outcome {
        Outcome::GetAlone => response.add_header(
            header::ALLOW,
            HeaderValue::from_static("GET, HEAD"),
        ),
        Outcome::PostAlone => response.add_header(header::ALLOW, HeaderValue::from_static("POST")),
        _ => Ok(()),
    }
}

/// Adds the headers of a reply.
fn put_headers(response: &mut Response, outcome: Outcome, kind: Kind) -> Result<(), AllocError>
    ensures headers { OnOk result
        (fields_of response.new ≡ fields_of response.old ++ model.headers_of outcome kind) }
    ensures status { response.new.status ≡ response.old.status }
    ensures body { response.new.body ≡ response.old.body }
{
    response.add_header(header::CONTENT_TYPE, type_of(kind))?;
    response.add_header(header::CACHE_CONTROL, HeaderValue::from_static("no-store"))?;
    response.add_header(
        header::X_CONTENT_TYPE_OPTIONS,
        HeaderValue::from_static("nosniff"),
    )?;
    response.add_header(header::CONTENT_SECURITY_POLICY, policy_of(kind))?;
    put_allowed(response, outcome)
}

/// Fills a response with a reply.
pub(crate) fn send(reply: &Reply, response: &mut Response) -> Result<(), AllocError>
    requires { IsBlank response.old }
    ensures { OnOk result (IsSent reply.now response.new) }
{
    response.status = status_of(reply.outcome);
    put_headers(response, reply.outcome, reply.kind)?;
    response.body.put_slice(&reply.text)?;
    Ok(())
}
