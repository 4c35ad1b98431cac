//! The delays that filters of a response ask for (in milliseconds): who steps a request hands them
//! to the outside's `Delay`.
ghost use Rattle.std.specs.Prelude.{drop};
ghost use Rattle.relay_tasks.specs.Log.{delays_of};
ghost use Rattle.relay_request.specs.Delays.{HandsOver};

use relay_links::Delay;
use relay_tasks::PhaseLog;

/// Hands over the delays that the calls of a log asked for, in order, from the one at that place
/// on.
pub fn hand_delays<Y: Delay>(log: &PhaseLog, from: usize, delay: &mut Y)
    ensures { HandsOver (Y.calls delay.old) (Y.total delay.old) (Y.calls delay.new)
        (Y.total delay.new) (drop from (delays_of log.now)) }
{
    let delays = log.delays();
    let mut at = from;
    while at < delays.len() {
        delay.delay(delays[at]);
        at += 1;
    }
}
