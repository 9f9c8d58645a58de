//! The kinds of options that this profile of DHCP knows, by the section of RFC 2132.

/// Padding of one byte (3.1).
pub const OPT_PAD: u8 = 0;
/// Subnet mask (3.3).
pub const OPT_SUBNET_MASK: u8 = 1;
/// Routers (3.5).
pub const OPT_ROUTER: u8 = 3;
/// Name servers (3.8).
pub const OPT_DOMAIN_NAME_SERVER: u8 = 6;
/// Requested address (9.1).
pub const OPT_REQUESTED_IP: u8 = 50;
/// Lease time in seconds (9.2).
pub const OPT_IP_LEASE_TIME: u8 = 51;
/// Message type (9.6).
pub const OPT_DHCP_MESSAGE_TYPE: u8 = 53;
/// Server identifier (9.7).
pub const OPT_SERVER_IDENTIFIER: u8 = 54;
/// Parameter request list (9.8).
pub const OPT_PARAMETER_REQUEST_LIST: u8 = 55;
/// Greatest message size (9.10).
pub const OPT_MAX_DHCP_MESSAGE_SIZE: u8 = 57;
/// Renewal time in seconds (9.11).
pub const OPT_RENEWAL_TIME_VALUE: u8 = 58;
/// Rebinding time in seconds (9.12).
pub const OPT_REBINDING_TIME_VALUE: u8 = 59;
/// Client identifier (9.14).
pub const OPT_CLIENT_ID: u8 = 61;
/// The end of the options (3.2).
pub const OPT_END: u8 = 255;
