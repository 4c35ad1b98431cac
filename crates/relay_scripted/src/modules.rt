//! The modules of a script: one, whose filters do what the rules say.
ghost use Rattle.std.specs.Prelude.{◌≡◌, IfOk, IsOkUnless};

use crate::decision::pass;
use bytes::Bytes;
use http_header::HeaderMap;
use relay_hooks::HttpModule;
use relay_script::{CheckedRules, filter_response, run_rules};
use relay_tasks::{Fail, Hook, RequestHeader, ResponseHeader, Result};

/// The modules that a script makes for a request. Its relation is their rules (`DoesCall`).
#[derive(Drop)]
pub struct ScriptModules {
    rules: CheckedRules,
}

impl ScriptModules {
    /// Modules with equal rules.
    pub fn new(rules: &CheckedRules) -> Result<ScriptModules>
        ensures ok { IfOk result (λ modules. modules.rules ≡ rules.now) }
        ensures memory { IsOkUnless result Fail.OutOfMemory }
    {
        Ok(ScriptModules {
            rules: rules.copy()?,
        })
    }
}

impl HttpModule for ScriptModules {
    ghost use Rattle.relay_scripted.specs.Modules.{DoesCall};

    ghost allows = { λ modules call. DoesCall modules.rules call };

    fn request_header_filter(&mut self, head: &mut RequestHeader) -> Result<()> {
        run_rules(self.rules.as_slice(), Hook::ModuleRequestHeader, head)
    }

    fn request_body_filter(&mut self, _body: &mut Option<Bytes>, _end: bool) -> Result<()> {
        pass(&self.rules, Hook::ModuleRequestBody)?;
        Ok(())
    }

    fn response_header_filter(&mut self, head: &mut ResponseHeader, _end: bool) -> Result<()> {
        filter_response(&self.rules, Hook::ModuleResponseHeader, head)
    }

    fn response_body_filter(&mut self, _body: &mut Option<Bytes>, _end: bool) -> Result<()> {
        pass(&self.rules, Hook::ModuleResponseBody)?;
        Ok(())
    }

    fn response_trailer_filter(
        &mut self,
        _trailers: &mut Option<HeaderMap>,
    ) -> Result<Option<Bytes>> {
        pass(&self.rules, Hook::ModuleResponseTrailer)?;
        Ok(None)
    }

    fn response_done_filter(&mut self) -> Result<Option<Bytes>> {
        pass(&self.rules, Hook::ModuleResponseDone)?;
        Ok(None)
    }
}
