//! A module: it filters what passes between the client and the hooks, in both directions.
ghost use Rattle.std.specs.Prelude.{◌≡◌, Ok, None};
ghost use Rattle.relay_h1.specs.ClientHead.{is_informational};
ghost use Rattle.relay_modules.specs.Module.{ModuleCall, request_header, request_body, response_header, response_body, response_trailer, response_done, AllowsOutcome, AllowsAnswer, LeavesInput};

use bytes::Bytes;
use http_header::HeaderMap;
use relay_tasks::{RequestHeader, ResponseHeader, Result};

/// A module of one request. It states which calls of its filters it allows, by what each was given,
/// what it left or answered, and its error; an answer that memory is wanted is always allowed.
///
/// Each filter also leaves the module such that it allows no call that it did not allow before. So
/// every call of a request is one that its modules allowed as they were made.
///
/// A trait's own body of a filter would be proved once for all modules, and so could not be proved
/// to keep to the calls that each of them allows: no filter has one.
pub trait HttpModule {
    ghost allows: { Self → ModuleCall → Type 0 };

    /// Changes the head of the request.
    fn request_header_filter(&mut self, head: &mut RequestHeader) -> Result<()>
        ensures allowed { AllowsOutcome (allows self.old)
            (λ error. request_header head.old head.new error) result }
        ensures narrows { (call : ModuleCall) → allows self.new call → allows self.old call };

    /// Changes a piece of the request's body; `end` says that the body ends with it.
    fn request_body_filter(&mut self, body: &mut Option<Bytes>, end: bool) -> Result<()>
        ensures allowed { AllowsOutcome (allows self.old)
            (λ error. request_body body.old body.new end error) result }
        ensures narrows { (call : ModuleCall) → allows self.new call → allows self.old call };

    /// Changes a head of the response; `end` says that the response ends with it. A head that
    /// informs goes on to inform, and a final head stays final.
    fn response_header_filter(&mut self, head: &mut ResponseHeader, end: bool) -> Result<()>
        ensures allowed { AllowsOutcome (allows self.old)
            (λ error. response_header head.old head.new end error) result }
        ensures narrows { (call : ModuleCall) → allows self.new call → allows self.old call }
        ensures kind { is_informational head.new.status ≡ is_informational head.old.status };

    /// Changes a piece of the response's body; `end` says that the body ends with it.
    fn response_body_filter(&mut self, body: &mut Option<Bytes>, end: bool) -> Result<()>
        ensures allowed { AllowsOutcome (allows self.old)
            (λ error. response_body body.old body.new end error) result }
        ensures narrows { (call : ModuleCall) → allows self.new call → allows self.old call };

    /// Changes the trailer fields of the response. Bytes that it answers end the body in their
    /// place.
    fn response_trailer_filter(&mut self, trailers: &mut Option<HeaderMap>) -> Result<Option<Bytes>>
        ensures allowed { AllowsAnswer (allows self.old)
            (λ answer error. response_trailer trailers.old trailers.new answer error) result }
        ensures narrows { (call : ModuleCall) → allows self.new call → allows self.old call };

    /// Called where the response ends behind its last piece. Bytes that it answers end the body.
    fn response_done_filter(&mut self) -> Result<Option<Bytes>>
        ensures allowed { AllowsAnswer (allows self.old) response_done result }
        ensures narrows { (call : ModuleCall) → allows self.new call → allows self.old call };
}

/// No module: each filter leaves what it is given, and answers nothing.
#[derive(Clone, Copy, Debug, Drop)]
pub struct NoModules;

impl HttpModule for NoModules {
    ghost allows = { λ _ call. LeavesInput call };

    fn request_header_filter(&mut self, head: &mut RequestHeader) -> Result<()>
        ensures allowed { AllowsOutcome LeavesInput
            (λ error. request_header head.old head.new error) result }
        ensures narrows { (call : ModuleCall) → LeavesInput call → LeavesInput call }
        ensures same { head.new ≡ head.old }
        ensures answer { result ≡ Ok tt }
    {
        Ok(())
    }

    fn request_body_filter(&mut self, body: &mut Option<Bytes>, end: bool) -> Result<()>
        ensures allowed { AllowsOutcome LeavesInput
            (λ error. request_body body.old body.new end error) result }
        ensures narrows { (call : ModuleCall) → LeavesInput call → LeavesInput call }
        ensures same { body.new ≡ body.old }
        ensures answer { result ≡ Ok tt }
    {
        Ok(())
    }

    fn response_header_filter(&mut self, head: &mut ResponseHeader, end: bool) -> Result<()>
        ensures allowed { AllowsOutcome LeavesInput
            (λ error. response_header head.old head.new end error) result }
        ensures narrows { (call : ModuleCall) → LeavesInput call → LeavesInput call }
        ensures kind { is_informational head.new.status ≡ is_informational head.old.status }
        ensures same { head.new ≡ head.old }
        ensures answer { result ≡ Ok tt }
    {
        Ok(())
    }

    fn response_body_filter(&mut self, body: &mut Option<Bytes>, end: bool) -> Result<()>
        ensures allowed { AllowsOutcome LeavesInput
            (λ error. response_body body.old body.new end error) result }
        ensures narrows { (call : ModuleCall) → LeavesInput call → LeavesInput call }
        ensures same { body.new ≡ body.old }
        ensures answer { result ≡ Ok tt }
    {
        Ok(())
    }

    fn response_trailer_filter(&mut self, trailers: &mut Option<HeaderMap>) -> Result<Option<Bytes>>
        ensures allowed { AllowsAnswer LeavesInput
            (λ answer error. response_trailer trailers.old trailers.new answer error) result }
        ensures narrows { (call : ModuleCall) → LeavesInput call → LeavesInput call }
        ensures same { trailers.new ≡ trailers.old }
        ensures answer { result ≡ Ok None }
    {
        Ok(None)
    }

    fn response_done_filter(&mut self) -> Result<Option<Bytes>>
        ensures allowed { AllowsAnswer LeavesInput response_done result }
        ensures narrows { (call : ModuleCall) → LeavesInput call → LeavesInput call }
        ensures answer { result ≡ Ok None }
    {
        Ok(None)
    }
}

/// Modules that may not be made yet: before they are made each filter leaves what it is given, and
/// answers nothing.
impl<M: HttpModule> HttpModule for Option<M> {
    ghost use Rattle.relay_modules.specs.Module.{AllowsMade};

    ghost allows = { AllowsMade M.allows };

    fn request_header_filter(&mut self, head: &mut RequestHeader) -> Result<()> {
        match self {
            None => Ok(()),
            Some(modules) => modules.request_header_filter(head),
        }
    }

    fn request_body_filter(&mut self, body: &mut Option<Bytes>, end: bool) -> Result<()> {
        match self {
            None => Ok(()),
            Some(modules) => modules.request_body_filter(body, end),
        }
    }

    fn response_header_filter(&mut self, head: &mut ResponseHeader, end: bool) -> Result<()> {
        match self {
            None => Ok(()),
            Some(modules) => modules.response_header_filter(head, end),
        }
    }

    fn response_body_filter(&mut self, body: &mut Option<Bytes>, end: bool) -> Result<()> {
        match self {
            None => Ok(()),
            Some(modules) => modules.response_body_filter(body, end),
        }
    }

    fn response_trailer_filter(
        &mut self,
        trailers: &mut Option<HeaderMap>,
    ) -> Result<Option<Bytes>> {
        match self {
            None => Ok(None),
            Some(modules) => modules.response_trailer_filter(trailers),
        }
    }

    fn response_done_filter(&mut self) -> Result<Option<Bytes>> {
        match self {
            None => Ok(None),
            Some(modules) => modules.response_done_filter(),
        }
    }
}
