//! Each hook once for each application, the answers to errors of every kind and source, each call
//! of a session with modules, and the order of calls at logs that are written by hand.

mod app;
mod calls;
mod closings;
mod default_app;
mod errors;
mod kept;
mod modules;
mod openings;
mod orders;
mod purgings;
mod rows;
mod scripted;
mod support;
mod tryings;
