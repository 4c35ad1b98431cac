//! The tasks of a response, filtered by the modules: each kind by its own filter, a failure by
//! none.
ghost use Rattle.std.specs.Prelude.{◌≡◌, None, MatchOption};
ghost use Rattle.relay_tasks.specs.declared.error.ErrorSource.TheVariants.{Internal};
ghost use Rattle.relay_h1.specs.Verdict.{refused_from};
ghost use Rattle.relay_modules.specs.Module.{ModuleCall};
ghost use Rattle.relay_modules.specs.Filtering.{MakesTask, FiltersTask, FiltersTasks, ended_by, refusal_of};

use crate::module::HttpModule;
use bytes::Bytes;
use relay_tasks::{Context, Error, ErrorType, Fail, HttpTask, Result, TaskList};
use std::alloc::Global;

/// Filters a task. What the modules made of it is then looked at: no upgrade is offered, so a head
/// that switches protocols is refused, and so is a piece behind one.
///
/// The error of the filter; `InvalidHTTPHeader` of the relay's own side, about `Mismatch101`
/// exactly where the filter left a head of status 101, about `BeforeUpgrade` exactly where it left
/// an upgraded piece.
pub fn filter_task<M: HttpModule>(modules: &mut M, task: HttpTask) -> Result<HttpTask>
    ensures filters { FiltersTask (M.allows modules.old) task result }
    ensures narrows { (call : ModuleCall) → M.allows modules.new call
        → M.allows modules.old call }
{
    let made = pass(modules, task)?;
    match refusal_of(&made) {
        Some(error) => Err(Fail::Error(error)),
        None => Ok(made),
    }
}

/// What the modules make of a task.
fn pass<M: HttpModule>(modules: &mut M, task: HttpTask) -> Result<HttpTask>
    ensures makes { MakesTask (M.allows modules.old) task result }
    ensures narrows { (call : ModuleCall) → M.allows modules.new call
        → M.allows modules.old call }
{
    match task {
        HttpTask::Header(mut head, end) => {
            modules.response_header_filter(&mut head, end)?;
            Ok(HttpTask::Header(head, end))
        }
        HttpTask::Body(mut piece, end) => {
            modules.response_body_filter(&mut piece, end)?;
            Ok(HttpTask::Body(piece, end))
        }
        HttpTask::UpgradedBody(mut piece, end) => {
            modules.response_body_filter(&mut piece, end)?;
            Ok(HttpTask::UpgradedBody(piece, end))
        }
        HttpTask::Trailer(mut fields) => {
            let answer = modules.response_trailer_filter(&mut fields)?;
            Ok(ended_by(answer, HttpTask::Trailer(fields)))
        }
        HttpTask::Done => {
            let answer = modules.response_done_filter()?;
            Ok(ended_by(answer, HttpTask::Done))
        }
        HttpTask::Failed(error) => Ok(HttpTask::Failed(error)),
    }
}

/// Bytes that a filter answered end the body; with none the other task stands.
fn ended_by(answer: Option<Bytes>, other: HttpTask) -> HttpTask
    ensures { result ≡ ended_by answer other }
{
    match answer {
        Some(bytes) => HttpTask::Body(Some(bytes), true),
        None => other,
    }
}

/// What a task is refused with once the modules made it.
fn refusal_of(made: &HttpTask) -> Option<Error>
    ensures { result ≡ refusal_of made.now }
{
    match made {
        HttpTask::Header(head, _) => {
            if head.status() == 101 {
                return Some(refused(Context::Mismatch101));
            }
            None
        }
        HttpTask::UpgradedBody(_, _) => Some(refused(Context::BeforeUpgrade)),
        HttpTask::Body(_, _) | HttpTask::Trailer(_) | HttpTask::Done | HttpTask::Failed(_) => None,
    }
}

/// A refusal on the relay's own side.
fn refused(why: Context) -> Error
    ensures { result ≡ refused_from Internal why }
{
    Error::explain(ErrorType::InvalidHTTPHeader, why).into_in()
}

/// Filters the tasks of a batch in their order, up to the first that does not pass; its error is
/// the answer, as in `filter_task`.
pub fn filter_tasks<M: HttpModule>(
    alloc: Global,
    modules: &mut M,
    mut tasks: TaskList,
) -> Result<TaskList>
    ensures filters { FiltersTasks (M.allows modules.old) tasks result }
    ensures narrows { (call : ModuleCall) → M.allows modules.new call
        → M.allows modules.old call }
{
    let mut made = TaskList::new(alloc);
    while let Some(task) = tasks.take_first() {
        match filter_task(modules, task) {
            Ok(one) => made.push(one)?,
            Err(fail) => return Err(fail),
        }
    }
    Ok(made)
}
