//! The functions of the library `protocols` that C, Rust and Python call: a module for each format.
//!
//! Each function is proved to do what its contract says, in each call that meets the conditions in the header.
#![tactic(auto)]

mod coap_header;
mod ethernet_header;
mod icmp_gateway;
mod icmp_header;
mod icmp_ids;
mod mqtt_header;
mod report_block;
mod rtcp_receiver_report;
mod shared;
mod socks_login;
mod status;
mod stun_header;
mod vlan_tag;
