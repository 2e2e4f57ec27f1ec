// The gateway transport layer's payloads of fixed and of least length (transport.rs).
#![tactic(auto)]

ghost use Rattle.std.specs.Prelude.{◌≡◌};
ghost use Rattle.layouts.specs.Layouts.{exactly, at_least, command_request_length, command_request_in, command_response_length, command_response_in, receive_request_length, receive_request_in, identify_response_length, identify_response_in, enumeration_start_request_length, enumeration_start_request_in, named_of};

use address::{Address, GatewayID};
use network::{LongAddress, PacketType};
pub use transport::CommandSequenceNumber;
use transport::PacketNumber;
use words::byte_at;

// A payload has not the length of its layout: the refusal 21.
#[derive(Clone, Copy, PartialEq, Eq)]
pub struct WrongLength;

// A command request frame payload.
#[derive(Clone, Copy)]
pub struct CommandRequest {
    pub unknown: [u8; 3],
    pub packet_type: PacketType,
    pub sequence_number: CommandSequenceNumber,
}

impl CommandRequest {
    // The request that a payload starts with. Refused by 21 if under 5 bytes.
    pub fn read(payload: &[u8]) -> Result<CommandRequest, WrongLength>
        ensures { result ≡ at_least command_request_length payload.now (command_request_in payload.now) }
    {
        if payload.len() < 5 {
            return Err(WrongLength);
        }
        Ok(CommandRequest::fields(payload))
    }

    // The fields of a payload of any length, by their places: a byte that is not there is 0.
    pub fn fields(payload: &[u8]) -> CommandRequest
        ensures { result ≡ command_request_in payload.now }
    {
        let unknown = [
            byte_at(payload, 0),
            byte_at(payload, 1),
            byte_at(payload, 2),
        ];
        let packet_type = PacketType(byte_at(payload, 3));
        let sequence_number = CommandSequenceNumber(byte_at(payload, 4));
        CommandRequest {
            unknown,
            packet_type,
            sequence_number,
        }
    }
}

// A command response frame payload.
#[derive(Clone, Copy)]
pub struct CommandResponse {
    pub unknown_1: u8,
    pub tx_buffers_free: u8,
    pub unknown_2: u8,
    pub packet_type: PacketType,
    pub command_sequence_number: CommandSequenceNumber,
}

impl CommandResponse {
    // The response that a payload starts with. Refused by 21 if under 5 bytes.
    pub fn read(payload: &[u8]) -> Result<CommandResponse, WrongLength>
        ensures { result ≡ at_least command_response_length payload.now (command_response_in payload.now) }
    {
        if payload.len() < 5 {
            return Err(WrongLength);
        }
        Ok(CommandResponse::fields(payload))
    }

    // The fields of a payload of any length, by their places: a byte that is not there is 0.
    pub fn fields(payload: &[u8]) -> CommandResponse
        ensures { result ≡ command_response_in payload.now }
    {
        let unknown_1 = byte_at(payload, 0);
        let tx_buffers_free = byte_at(payload, 1);
        let unknown_2 = byte_at(payload, 2);
        let packet_type = PacketType(byte_at(payload, 3));
        let command_sequence_number = CommandSequenceNumber(byte_at(payload, 4));
        CommandResponse {
            unknown_1,
            tx_buffers_free,
            unknown_2,
            packet_type,
            command_sequence_number,
        }
    }
}

// A receive request frame payload.
#[derive(Clone, Copy)]
pub struct ReceiveRequest {
    pub unknown_1: [u8; 2],
    pub packet_number: PacketNumber,
    pub unknown_2: u8,
}

impl ReceiveRequest {
    // The request that a payload is. Refused by 21 if not of 5 bytes.
    pub fn read(payload: &[u8]) -> Result<ReceiveRequest, WrongLength>
        ensures { result ≡ exactly receive_request_length payload.now (receive_request_in payload.now) }
    {
        if payload.len() != 5 {
            return Err(WrongLength);
        }
        Ok(ReceiveRequest::fields(payload))
    }

    // The fields of a payload of any length, by their places: a byte that is not there is 0.
    pub fn fields(payload: &[u8]) -> ReceiveRequest
        ensures { result ≡ receive_request_in payload.now }
    {
        let unknown_1 = [byte_at(payload, 0), byte_at(payload, 1)];
        let number = [byte_at(payload, 2), byte_at(payload, 3)];
        let packet_number = PacketNumber(u16::from_be_bytes(number));
        let unknown_2 = byte_at(payload, 4);
        ReceiveRequest {
            unknown_1,
            packet_number,
            unknown_2,
        }
    }
}

// An identify response frame payload, and an enumeration response's.
#[derive(Clone, Copy)]
pub struct IdentifyResponse {
    pub pv_long_address: LongAddress,
    pub gateway_address: [u8; 2],
}

// An address in a payload names no gateway, since its direction is From: the refusal 28 of an enumeration start.
#[derive(Clone, Copy, PartialEq, Eq)]
pub struct NamesFrom;

// The gateway that an address in a payload names.
#[tactic(auto, unfolding(crate::specs::Layouts::named_of))]
fn gateway_in(address: [u8; 2]) -> Result<GatewayID, NamesFrom>
    ensures { result ≡ named_of address }
{
    match Address::from_be_bytes(address) {
        Address::From(_) => Err(NamesFrom),
        Address::To(id) => Ok(id),
    }
}

impl IdentifyResponse {
    // The response that a payload is. Refused by 21 if not of 10 bytes.
    pub fn read(payload: &[u8]) -> Result<IdentifyResponse, WrongLength>
        ensures { result ≡ exactly identify_response_length payload.now (identify_response_in payload.now) }
    {
        if payload.len() != 10 {
            return Err(WrongLength);
        }
        Ok(IdentifyResponse::fields(payload))
    }

    // The fields of a payload of any length, by their places: a byte that is not there is 0.
    pub fn fields(payload: &[u8]) -> IdentifyResponse
        ensures { result ≡ identify_response_in payload.now }
    {
        let long = [
            byte_at(payload, 0),
            byte_at(payload, 1),
            byte_at(payload, 2),
            byte_at(payload, 3),
            byte_at(payload, 4),
            byte_at(payload, 5),
            byte_at(payload, 6),
            byte_at(payload, 7),
        ];
        let pv_long_address = LongAddress(long);
        let gateway_address = [byte_at(payload, 8), byte_at(payload, 9)];
        IdentifyResponse {
            pv_long_address,
            gateway_address,
        }
    }

    // The gateway that the response names.
    pub fn gateway_id(self) -> Result<GatewayID, NamesFrom>
        ensures { result ≡ named_of self.gateway_address }
    {
        gateway_in(self.gateway_address)
    }
}

// An enumeration start request frame payload.
#[derive(Clone, Copy)]
pub struct EnumerationStartRequest {
    pub unknown: [u8; 4],
    pub enumeration_address: [u8; 2],
}

impl EnumerationStartRequest {
    // The request that a payload is. Refused by 21 if not of 6 bytes.
    pub fn read(payload: &[u8]) -> Result<EnumerationStartRequest, WrongLength>
        ensures { result ≡ exactly enumeration_start_request_length payload.now (enumeration_start_request_in payload.now) }
    {
        if payload.len() != 6 {
            return Err(WrongLength);
        }
        Ok(EnumerationStartRequest::fields(payload))
    }

    // The fields of a payload of any length, by their places: a byte that is not there is 0.
    pub fn fields(payload: &[u8]) -> EnumerationStartRequest
        ensures { result ≡ enumeration_start_request_in payload.now }
    {
        let unknown = [
            byte_at(payload, 0),
            byte_at(payload, 1),
            byte_at(payload, 2),
            byte_at(payload, 3),
        ];
        let enumeration_address = [byte_at(payload, 4), byte_at(payload, 5)];
        EnumerationStartRequest {
            unknown,
            enumeration_address,
        }
    }

    // The gateway that is to be enumerated with. A From address is refused by 28.
    pub fn enumeration_gateway_id(self) -> Result<GatewayID, NamesFrom>
        ensures { result ≡ named_of self.enumeration_address }
    {
        gateway_in(self.enumeration_address)
    }
}
