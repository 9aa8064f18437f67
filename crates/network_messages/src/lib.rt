//! Messages of networks, as `./format` prints them from the descriptions in `formats/`.
//!
//! - [`coap_message`]: a message of CoAP, whose options and payload are bytes
//! - [`eapol_packet`]: a packet of EAP in a frame of IEEE 802.1X, whose length is computed
//! - [`rtp_packet`]: the header of an RTP packet with its [`rtp_extension`]
//! - [`udp_datagram`]: a datagram of UDP, whose checksum covers an [`ipv4_pseudo`]
//! - [`checked_ipv4`], [`ipv4_packet`], [`icmp_message`], [`adsb_frame`]: checksums; an `ipv4_packet` may have options
//! - [`quic_stream`]: numbers of 1, 2, 4 or 8 bytes
//! - [`tftp_request`], [`tftp_data`]: texts up to a 0, and bytes up to the end
#![tactic(auto)]

pub mod adsb_frame;
pub mod checked_ipv4;
pub mod coap_message;
pub mod eapol_packet;
pub mod icmp_message;
pub mod ipv4_packet;
pub mod ipv4_pseudo;
pub mod quic_stream;
pub mod rtp_extension;
pub mod rtp_packet;
pub mod tftp_data;
pub mod tftp_request;
pub mod udp_datagram;
