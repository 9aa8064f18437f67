//! Headers of protocols and of files in use, which `./format` printed from the descriptions in `formats/`. Each
//! description names the standard and its section, and its examples are from captures or the standard.
//!
//! - [`adsb_message`]: the fixed part of an ADS-B message
//! - [`arp_packet`]: a packet of ARP for IPv4 over Ethernet
//! - [`can_frame`]: the header of a CAN frame in a capture
//! - [`coap_header`]: the header of a CoAP message and its token
//! - [`dns_header`]: the header of a DNS message
//! - [`ethernet_header`]: the header of an Ethernet frame, with [`vlan_tag`]: the tag of a virtual network
//! - [`icmp_echo`]: the header of an echo message of ICMP
//! - [`icmp_header`]: the header of each message of ICMP, with [`icmp_ids`] and [`icmp_gateway`]: its parts
//! - [`ipv4_header`]: the header of an IPv4 packet without options
//! - [`ipv6_header`]: the header of an IPv6 packet without extension headers
//! - [`j1939_frame`]: a CAN frame of SAE J1939 in a capture
//! - [`mac_frame_control`]: the frame control field of IEEE 802.15.4
//! - [`modbus_header`]: the header of a Modbus/TCP message
//! - [`mp3_header`]: the header of a frame of MPEG audio
//! - [`mqtt_header`]: the fixed header of an MQTT packet
//! - [`ntp_packet`]: the header of an NTP packet, with [`ntp_timestamp`]: its timestamps
//! - [`png_start`]: the start of a PNG file, with its first chunk
//! - [`quic_long_header`]: the start of a long header of QUIC
//! - [`rtcp_receiver_report`]: a receiver report of RTCP, with [`report_block`]: its blocks
//! - [`rtcp_sender_report`]: a sender report of RTCP, up to its blocks
//! - [`socks_login`]: the name and the password of a user of SOCKS
//! - [`tcp_header`]: the header of a TCP segment without options
//! - [`ts_header`]: the header of a packet of an MPEG transport stream
//! - [`udp_header`]: the header of a UDP datagram
#![tactic(auto)]

pub mod adsb_message;
pub mod arp_packet;
pub mod can_frame;
pub mod coap_header;
pub mod dns_header;
pub mod ethernet_header;
pub mod icmp_echo;
pub mod icmp_gateway;
pub mod icmp_header;
pub mod icmp_ids;
pub mod ipv4_header;
pub mod ipv6_header;
pub mod j1939_frame;
pub mod mac_frame_control;
pub mod modbus_header;
pub mod mp3_header;
pub mod mqtt_header;
pub mod ntp_packet;
pub mod ntp_timestamp;
pub mod png_start;
pub mod quic_long_header;
pub mod report_block;
pub mod rtcp_receiver_report;
pub mod rtcp_sender_report;
pub mod socks_login;
pub mod stun_header;
pub mod tcp_header;
pub mod ts_header;
pub mod udp_header;
pub mod vlan_tag;
