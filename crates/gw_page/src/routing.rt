//! From a request to its reply.

ghost use Rattle.std.specs.Prelude.{◌≡◌, ◌∷◌, map, option_map, IfOk};
ghost use Rattle.std.specs.String.{string_bytes};
ghost use Rattle.gw_page.specs.Pages as model;
ghost use Rattle.gw_page.specs.Pages.{IsPageFor, IsReplyTo, IsReplyToWords, Replies};
ghost use Rattle.gw_page.specs.Words.{words_in};

use crate::answering::{no_memory, reply_to_inquiry, said};
use crate::html::PAGE;
use crate::inquiry::inquiry_of;
use crate::reply::{Kind, Outcome, Reply};
use crate::texts::{UNKNOWN, USAGE, WRONG_METHOD};
use crate::words::words_of;
use bytes::Bytes;
use gw_command_line::command_of;
use gw_object::Memory;
use http::Request;
use std::alloc::Global;
use std::io::Eprint;
use std::thread::Threads;

/// The command that a path is for.
fn name_in(path: &str) -> Option<&'static str>
    ensures { option_map (λ name. name.now) result ≡ model.name_in path.now }
{
    match path {
        "/explain" => Some("explain"),
        "/list" => Some("list"),
        "/chart" => Some("chart"),
        "/points" => Some("points"),
        "/trace" => Some("trace"),
        "/report" => Some("report"),
        "/study" => Some("study"),
        "/runs" => Some("runs"),
        "/convert" => Some("convert"),
        _ => None,
    }
}

/// The reply to the words of a command about a text.
fn reply_to_words<T: Threads + Sync + Eprint>(
    rt: &T,
    alloc: Global,
    words: &[String],
    text: &[u8],
) -> Result<Reply, Memory>
    ensures { IfOk result (IsReplyToWords (map string_bytes words.now) text.now) }
{
    let Some(command) = command_of(words) else {
        return said(alloc, Outcome::Malformed, Kind::Plain, USAGE);
    };
    match inquiry_of(command) {
        Some(inquiry) => reply_to_inquiry(rt, alloc, &inquiry, text),
        None => said(alloc, Outcome::Malformed, Kind::Plain, USAGE),
    }
}

/// The reply to a command with a query, about a text.
fn reply_to_command<T: Threads + Sync + Eprint>(
    rt: &T,
    alloc: Global,
    name: &str,
    query: &str,
    text: &[u8],
) -> Result<Reply, Memory>
    ensures { IfOk result (IsReplyToWords (name.now ∷ words_in query.now) text.now) }
{
    let words = words_of(alloc, name, query)?;
    reply_to_words(rt, alloc, &words, text)
}

/// The reply to what asks for the page.
fn reply_of_page(alloc: Global, method: &str) -> Result<Reply, Memory>
    ensures { IfOk result (IsPageFor method.now) }
{
    match method {
        "GET" | "HEAD" => said(alloc, Outcome::Answered, Kind::Html, PAGE),
        _ => said(alloc, Outcome::GetAlone, Kind::Plain, WRONG_METHOD),
    }
}

/// The reply to a request.
fn reply_if_memory<T: Threads + Sync + Eprint>(
    rt: &T,
    alloc: Global,
    request: &Request<Bytes>,
) -> Result<Reply, Memory>
    ensures { IfOk result (IsReplyTo request.now) }
{
    let path = request.uri().path();
    let method = request.method().as_str();
    if path == "/" {
        return reply_of_page(alloc, method);
    }
    match name_in(path) {
        Some(name) if method == "POST" => {
            let query = request.uri().query().unwrap_or("");
            reply_to_command(rt, alloc, name, query, request.body())
        }
        Some(_) => said(alloc, Outcome::PostAlone, Kind::Plain, WRONG_METHOD),
        None => said(alloc, Outcome::Unknown, Kind::Plain, UNKNOWN),
    }
}

/// The reply to a request: also where memory runs out, if there is enough to say so.
pub(crate) fn reply_to<T: Threads + Sync + Eprint>(
    rt: &T,
    alloc: Global,
    request: &Request<Bytes>,
) -> Result<Reply, Memory>
    ensures { IfOk result (Replies request.now) }
{
    match reply_if_memory(rt, alloc, request) {
        Ok(reply) => Ok(reply),
        Err(_) => no_memory(alloc),
    }
}
