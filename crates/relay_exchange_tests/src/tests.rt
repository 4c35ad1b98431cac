//! Each public call once with ample memory, and whole exchanges over links in memory.

mod app;
mod attempt;
mod duplexes;
mod filters;
mod hooked;
mod peer;
mod scripts;
mod session;
mod sides;
mod words;
