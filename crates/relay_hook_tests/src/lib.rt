//! Tests of the hooks of the applications that this repository has, over sessions with a read head,
//! of a session with modules, and of the order of calls.
//! A test that holds a session is dear to prove, so each hook is called in a function of its own,
//! generic over the application, and a test sees what came of it alone.
#![tactic(auto)]

#[cfg(test)]
mod tests;
