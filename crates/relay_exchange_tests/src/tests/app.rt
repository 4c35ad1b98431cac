//! An application that changes what passes.
use bytes::Bytes;
use http_header::{HeaderValue, VIA};
use relay_hooks::{App, Filters, NoModules, Session};
use relay_tasks::{Error, ErrorType, Fail, ResponseHeader, Result};
use std::alloc::{AllocError, Global};

/// What it does.
#[derive(Clone, Copy, Drop, PartialEq)]
pub(super) enum Does {
    /// Nothing.
    Leaves,
    /// It holds a piece of the request back until that ends, and then passes all of it as one.
    Gathers,
    /// It leaves no piece of the request.
    Cuts,
    /// It writes `no` for each piece of the request, adds a field to each head of the response,
    /// writes `ho` for each piece of that, and refuses the piece `no`.
    Writes,
    /// It asks for a delay of 5 with each piece of the response.
    Slows,
}

/// The filters of such an application.
#[derive(Drop)]
pub(super) struct Changes {
    does: Does,
}

/// The application that does that.
pub(super) fn app(does: Does) -> App<Changes> {
    App::new(Changes { does })
}

/// The error with which the piece `no` is refused.
pub(super) fn refused() -> Fail {
    Fail::Error(Error::new(ErrorType::Custom(7)))
}

/// What was held back and that piece, as one.
fn joined(alloc: Global, held: &Bytes, piece: &Option<Bytes>) -> Result<Bytes> {
    let mut whole = Vec::new(alloc);
    whole.extend_from_slice(held)?;
    if let Some(bytes) = piece {
        whole.extend_from_slice(bytes)?;
    }
    Ok(Bytes::from_vec(whole).map_err(AllocError::from)?)
}

/// Holds the piece back behind what was, or passes all of it.
fn gather(alloc: Global, body: &mut Option<Bytes>, end: bool, held: &mut Bytes) -> Result<()> {
    let whole = joined(alloc, held, body)?;
    if end {
        *body = Some(whole);
    } else {
        *held = whole;
        *body = Some(Bytes::new());
    }
    Ok(())
}

/// Writes that for the piece, where there is one.
fn write(body: &mut Option<Bytes>, bytes: &'static [u8]) {
    if body.is_some() {
        *body = Some(Bytes::from_static(bytes));
    }
}

/// Whether the piece is to be refused.
fn is_refused(body: &Option<Bytes>) -> bool {
    match body {
        Some(piece) => piece.as_slice() == b"no".as_slice(),
        None => false,
    }
}

impl Filters for Changes {
    type CTX = Bytes;

    fn new_ctx(&self) -> Bytes {
        Bytes::new()
    }

    fn request_body_filter(
        &self,
        alloc: Global,
        _session: &Session<NoModules>,
        body: &mut Option<Bytes>,
        end: bool,
        ctx: &mut Bytes,
    ) -> Result<()> {
        match self.does {
            Does::Leaves | Does::Slows => {}
            Does::Gathers => return gather(alloc, body, end, ctx),
            Does::Cuts => *body = None,
            Does::Writes => write(body, b"no"),
        }
        Ok(())
    }

    fn upstream_response_filter(
        &self,
        _alloc: Global,
        _session: &Session<NoModules>,
        head: &mut ResponseHeader,
        _ctx: &mut Bytes,
    ) -> Result<()> {
        if self.does == Does::Writes {
            return head.insert_header(VIA, HeaderValue::from_static("relay"));
        }
        Ok(())
    }

    fn response_body_filter(
        &self,
        _alloc: Global,
        _session: &Session<NoModules>,
        body: &mut Option<Bytes>,
        _end: bool,
        _ctx: &mut Bytes,
    ) -> Result<Option<u64>> {
        match self.does {
            Does::Leaves | Does::Gathers | Does::Cuts => {}
            Does::Slows => return Ok(Some(5)),
            Does::Writes => {
                if is_refused(body) {
                    return Err(refused());
                }
                write(body, b"ho");
            }
        }
        Ok(None)
    }
}
