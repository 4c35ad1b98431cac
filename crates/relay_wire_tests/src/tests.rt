//! Vectors from outside, and each public call once with ample memory, a module for each crate.

mod authority;
mod connector;
mod h1;
mod links;
mod script;
mod tasks;
mod tcp;
