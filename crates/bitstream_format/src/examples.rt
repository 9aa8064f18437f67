pub mod adts;
pub mod dhcp_option;
pub mod rtp_header;
pub mod sample;
pub mod values;
