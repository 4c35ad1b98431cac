//! Each public call once with ample memory, on links in memory.

mod replay;
mod session;
mod writing;
