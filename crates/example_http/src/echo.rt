//! What is answered to a request.
ghost use Rattle.std.specs.Prelude.{◌≡◌, ◌+◌, ◌%◌, ◌^◌, OnOk};
ghost use Rattle.http.specs.Request.{body_of};
ghost use Rattle.http_server.specs.Response.{IsBlank};
ghost use Rattle.example_http.specs.Echo.{Answers, IsCount, IsEcho, Reply, asked_path, target_path};

use bytes::{BufMut, Bytes};
use http::{HeaderValue, Request, StatusCode, header};
use http_server::{Response, Service};
use itoa::Buffer;
use std::alloc::AllocError;

/// Answers `POST /echo` by the body, and `GET /count` by how many requests were answered before.
#[derive(Drop)]
pub struct Echo {
    answered: u64,
}

/// What a request asks for.
#[derive(Clone, Copy)]
enum Target {
    Echo,
    Count,
    /// A path that `POST` alone is for.
    OnlyPost,
    /// A path that `GET` and `HEAD` alone are for.
    OnlyGet,
    Missing,
}

impl Echo {
    /// Returns a service that has answered no request.
    pub fn new() -> Echo
        ensures { result.answered ≡ 0 }
    {
        Echo { answered: 0 }
    }

    fn answer(&self, request: &Request<Bytes>, response: &mut Response) -> Result<(), AllocError>
        requires { IsBlank response.old }
        ensures { OnOk result (Reply self.now.answered request.now (asked_path request.now) response.new) }
    {
        match target_of(request.method().as_str(), request.uri().path()) {
            Target::Echo => echo_body(request, response),
            Target::Count => count_text(self.answered, response),
            Target::OnlyPost => {
                response.status = StatusCode::METHOD_NOT_ALLOWED;
                response.add_header(header::ALLOW, HeaderValue::from_static("POST"))
            }
            Target::OnlyGet => {
                response.status = StatusCode::METHOD_NOT_ALLOWED;
                response.add_header(header::ALLOW, HeaderValue::from_static("GET, HEAD"))
            }
            Target::Missing => {
                response.status = StatusCode::NOT_FOUND;
                Ok(())
            }
        }
    }
}

impl Service for Echo {
    ghost answers = { Answers };

    fn call(
        &mut self,
        request: &Request<Bytes>,
        response: &mut Response,
    ) -> Result<(), AllocError> {
        self.answer(request, response)?;
        self.answered = self.answered.wrapping_add(1);
        Ok(())
    }
}

/// Returns what a request with this method and path asks for.
fn target_of(method: &str, path: &str) -> Target
    ensures { result ≡ target_path method.now path.now }
{
    match (path, method) {
        ("/echo", "POST") => Target::Echo,
        ("/echo", _) => Target::OnlyPost,
        ("/count", "GET" | "HEAD") => Target::Count,
        ("/count", _) => Target::OnlyGet,
        _ => Target::Missing,
    }
}

/// Answers with the body of the request and its content type, if it has one.
fn echo_body(request: &Request<Bytes>, response: &mut Response) -> Result<(), AllocError>
    requires { IsBlank response.old }
    ensures { OnOk result (IsEcho request.now response.new) }
{
    if let Some(kind) = request.headers().get(header::CONTENT_TYPE) {
        response.add_header(header::CONTENT_TYPE, kind.clone()?)?;
    }
    response.body.push(request.body().clone()?)
}

/// Answers with a number as text.
fn count_text(answered: u64, response: &mut Response) -> Result<(), AllocError>
    requires { IsBlank response.old }
    ensures { OnOk result (IsCount answered response.new) }
{
    let kind = HeaderValue::from_static("text/plain");
    response.add_header(header::CONTENT_TYPE, kind)?;
    response
        .body
        .put_slice(Buffer::new().format(answered).as_bytes())
}
