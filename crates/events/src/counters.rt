// The 33 transport counters, one a line, under the source's names and in its order, which is that of the array.
use std::io::Result;

const NAMES: [&str; 33] = [
    "unhandled_frame_type",
    "invalid_receive_request",
    "receive_requests",
    "invalid_receive_responses",
    "receive_response_from_unknown_gateway",
    "receive_responses",
    "receive_packets",
    "receive_packet_too_short",
    "invalid_command_requests",
    "retransmitted_command_requests",
    "command_requests",
    "invalid_command_responses",
    "retransmitted_command_responses",
    "command_responses",
    "ping_requests",
    "ping_responses",
    "enumeration_start_requests",
    "invalid_enumeration_start_request",
    "enumeration_start_responses",
    "enumeration_requests",
    "enumeration_responses",
    "invalid_enumeration_responses",
    "version_requests",
    "version_responses",
    "invalid_version_responses",
    "enumeration_end_requests",
    "enumeration_end_responses",
    "invalid_enumeration_end_responses",
    "assign_gateway_id_requests",
    "assign_gateway_id_responses",
    "identify_requests",
    "identify_responses",
    "invalid_identify_responses",
];

// Writes the counters, and tells whether that went well.
pub fn print_counters(rt: &HostRuntime, counters: &[u64; 33]) -> Result<()> {
    for (name, number) in NAMES.iter().zip(counters) {
        console::print_lines_of_bytes(rt, &[(name.as_bytes(), *number)])?;
    }
    Ok(())
}
