//! Each public call with ample memory, who gives way where all 64 seats are taken, whole requests
//! behind an application that counts, with its modules and without, and others over links of
//! messages and links used again.

mod counting;
mod memory;
mod modules;
mod requests;
mod serving_schedule;
mod steps;
mod support;
mod upstreams;
