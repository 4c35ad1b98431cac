//! Each public call once, with ample memory.

mod h1_client;
mod peer_side;
