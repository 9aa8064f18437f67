//! The functions of the library `network_messages` that C, Rust and Python call: a module for each format.
//!
//! Each function is proved to do what its contract says, in each call that meets the conditions in the header.
#![tactic(auto)]

mod icmp_message;
mod ipv4_packet;
mod ipv4_pseudo;
mod shared;
mod status;
mod udp_datagram;
