//! The page as a service of HTTP.

ghost use Rattle.std.specs.Prelude.{◌≡◌};
ghost use Rattle.gw_page.specs.Serving.{Converses};

use crate::quiet::Quiet;
use crate::reply::send;
use crate::routing::reply_to;
use bytes::Bytes;
use http::Request;
use http_server::{Config, Connection, Response, Service, serve};
use std::alloc::{AllocError, Global};
use std::hash::RandomState;
use std::io;
use std::io::{Read, Write};
use std::thread::Threads;

/// The page: what it answers depends on the request alone.
#[derive(Drop)]
struct Page<T> {
    /// What studies make their runs with.
    quiet: Quiet<T>,
    alloc: Global,
}

impl<T: Threads> Service for Page<T> {
    ghost use Rattle.gw_page.specs.Pages.{Answers};

    ghost answers = { λ old request response new. (new ≡ old) × Answers request response };

    fn call(
        &mut self,
        request: &Request<Bytes>,
        response: &mut Response,
    ) -> Result<(), AllocError> {
        match reply_to(&self.quiet, self.alloc, request) {
            Ok(reply) => send(&reply, response),
            Err(_) => Err(AllocError),
        }
    }
}

/// Answers the requests of one connection until it is done: its input ends, either side asks to close it, or what stands there is no
/// request. `Err` where a read or a write fails.
pub fn serve_page<T: Threads, R: Read, W: Write>(
    rt: &T,
    alloc: Global,
    keys: RandomState,
    reader: &mut R,
    writer: &mut W,
) -> io::Result<()>
    ensures served { Converses R.remaining W.contents reader.old reader.new writer.old writer.new }
{
    let mut page = Page {
        quiet: Quiet::of(rt),
        alloc,
    };
    let mut connection = Connection::new(alloc, keys, Config::default());
    serve(&mut connection, &mut page, reader, writer)
}
