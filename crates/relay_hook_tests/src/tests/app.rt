//! An application that changes one thing.
use crate::tests::calls::{self, Told};
use crate::tests::support::expect;
use http_header::{HeaderValue, VIA};
use relay_hooks::{App, Filters, NoModules, Session};
use relay_tasks::{ResponseHeader, Result};
use std::alloc::Global;

/// Names the relay in each response.
#[derive(Drop)]
struct Tag;

impl Filters for Tag {
    type CTX = ();

    fn new_ctx(&self) {}

    fn response_filter(
        &self,
        _alloc: Global,
        _session: &Session<NoModules>,
        head: &mut ResponseHeader,
        _ctx: &mut (),
    ) -> Result<()> {
        head.insert_header(VIA, HeaderValue::from_static("relay"))
    }
}

#[test]
fn changes_one_thing(rt: HostRuntime) {
    let tagged = Told {
        status: 204,
        via: true,
    };
    let app = Ok(App::new(Tag));
    expect(&rt, calls::response_filter(app, rt.alloc()), Ok(tagged));
    let app = Ok(App::new(Tag));
    expect(&rt, calls::request_filter(app, rt.alloc()), Ok((false, 0)));
}
