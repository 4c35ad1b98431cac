//! The order of calls at logs that are written by hand. Each clause is proved by computation.
ghost use Rattle.std.specs.Prelude.{◌≡◌, ◌++◌, ◌∷◌, [], true, false, Some, None};
ghost use Rattle.relay_tasks.specs.declared.hook.Hook.TheVariants.{Logging, UpstreamPeer};
ghost use Rattle.relay_tasks.specs.declared.log.Item.TheVariants.{Nothing};
ghost use Rattle.relay_phases.specs.Order.{Accepts, next_behind, accepted, kept};
ghost use Rattle.relay_phases.specs.Examples.{call, plain_get, up_to_attempt, up_to_response, turned_head, body, end, missed, head};

/// The log of a plain GET is in order.
fn takes_a_plain_get()
    ensures { Accepts accepted plain_get kept }
{}

/// A log with two `logging` entries is not.
fn refuses_to_log_twice()
    ensures { next_behind (Some accepted)
        (up_to_attempt ++ up_to_response ++ head ++ body
        ++ call Logging Nothing ∷ call Logging Nothing ∷ []) ≡ None }
{}

/// Nor is one in which a head came to the client's filter before the upstream's.
fn refuses_a_head_that_is_filtered_in_the_wrong_order()
    ensures { next_behind (Some accepted)
        (up_to_attempt ++ up_to_response ++ turned_head ++ body ++ end) ≡ None }
{}

/// Another attempt may follow an error that is marked so.
fn takes_a_second_attempt()
    ensures { Accepts accepted
        (up_to_attempt ++ missed true ++ up_to_response ++ head ++ body ++ end) kept }
{}

/// And none follows another error.
fn refuses_a_second_attempt()
    ensures { next_behind (Some accepted) (up_to_attempt ++ missed false) ≡ None }
{}

#[test]
fn keeps_to_the_order(rt: HostRuntime) {
    let _rt = rt;
    takes_a_plain_get();
    refuses_to_log_twice();
    refuses_a_head_that_is_filtered_in_the_wrong_order();
    takes_a_second_attempt();
    refuses_a_second_attempt();
}
