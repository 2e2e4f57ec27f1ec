// The gateway link layer's frames (link.rs).
#![tactic(auto)]

ghost use Rattle.std.specs.Prelude.{◌≡◌, ◌++◌, ◌+◌, ◌≤◌, length};
ghost use Rattle.laws.specs.Bytes.{laid_over};
ghost use Rattle.crc.specs.Crc.{crc_of};
ghost use Rattle.link.specs.Wire.{frame_at, start_of, wire_of, body_of, body_limit};
ghost use Rattle.laws.specs.Numbers.{KeepsNumber};
ghost use Rattle.address.specs.Handed.{refusal_of as address_refusal};
ghost use Rattle.escaping.specs.Handed.{refusal_of as escape_refusal};
ghost use Rattle.link.specs.Handed.{refusal_of, handed, written_handed, written_bytes, numbered_handed, numbered_bytes, encode_handed, encode_bytes, bracketed};

use address::{Address, InvalidGatewayID};
use escaping::EscapeError;
use words::{copy_in, high, low};

// A link layer frame type.
#[derive(Clone, Copy, PartialEq, Eq)]
pub struct Type(pub u16);

impl Type {
    pub const RECEIVE_REQUEST: Self = Type(0x0148);

    pub const RECEIVE_RESPONSE: Self = Type(0x0149);

    pub const COMMAND_REQUEST: Self = Type(0x0b0f);

    pub const COMMAND_RESPONSE: Self = Type(0x0b10);

    pub const PING_REQUEST: Self = Type(0x0b00);

    pub const PING_RESPONSE: Self = Type(0x0b01);

    pub const ENUMERATION_START_REQUEST: Self = Type(0x0014);

    pub const ENUMERATION_START_RESPONSE: Self = Type(0x0015);

    pub const ENUMERATION_REQUEST: Self = Type(0x0038);

    pub const ENUMERATION_RESPONSE: Self = Type(0x0039);

    pub const ASSIGN_GATEWAY_ID_REQUEST: Self = Type(0x003c);

    pub const ASSIGN_GATEWAY_ID_RESPONSE: Self = Type(0x003d);

    pub const IDENTIFY_REQUEST: Self = Type(0x003a);

    pub const IDENTIFY_RESPONSE: Self = Type(0x003b);

    pub const VERSION_REQUEST: Self = Type(0x000a);

    pub const VERSION_RESPONSE: Self = Type(0x000b);

    pub const ENUMERATION_END_REQUEST: Self = Type(0x0e02);

    pub const ENUMERATION_END_RESPONSE: Self = Type(0x0006);
}

// The longest payload of a frame: its body of 256 bytes less address, type and check.
pub const PAYLOAD_LIMIT: usize = 250;

// The refusals of `encode`: 13, 10 and 11.
#[derive(Clone, Copy, PartialEq, Eq)]
pub enum EncodeError {
    InvalidGatewayID,
    TooLong,
    NoRoom,
}

impl From<InvalidGatewayID> for EncodeError {
    ghost from_gives = { KeepsNumber address_refusal refusal_of };

    fn from(_e: InvalidGatewayID) -> EncodeError {
        EncodeError::InvalidGatewayID
    }
}

impl From<EscapeError> for EncodeError {
    ghost from_gives = { KeepsNumber escape_refusal refusal_of };

    fn from(e: EscapeError) -> EncodeError {
        match e {
            EscapeError::TooLong => EncodeError::TooLong,
            EscapeError::NoRoom => EncodeError::NoRoom,
        }
    }
}

// Lays address, type, payload and their check over the start of `body`.
fn assemble(body: &mut [u8], number: u16, frame_type: u16, payload: &[u8])
    requires { length payload.now + 6 ≤ length body.old }
    ensures { body.new ≡ laid_over (body_of crc_of (frame_at number frame_type payload.now)) body.old }
{
    let head = [high(number), low(number), high(frame_type), low(frame_type)];
    copy_in(body, 0, &head);
    copy_in(body, 4, payload);
    let n = payload.len() + 4;
    let check = crc::crc(&body[..n]);
    let tail = [low(check), high(check)];
    copy_in(body, n, &tail);
}

// Writes a start sequence, and an end sequence `m` bytes behind it.
fn bracket(start: &[u8], m: usize, out: &mut [u8])
    requires { length start.now + m + 2 ≤ length out.old }
    ensures { out.new ≡ bracketed start.now m out.old }
{
    let k = start.len() + m;
    let end = [0x7e, 0x08];
    copy_in(out, 0, start);
    copy_in(out, k, &end);
}

// Writes a start sequence, the escaped body and the end sequence. Refused by 11, with `out` as it was.
fn enclose(start: &[u8], body: &[u8], out: &mut [u8]) -> Result<usize, EncodeError>
    requires { (length start.now ≤ 5) × (length body.now ≤ body_limit) }
    ensures answer { handed result ≡ written_handed (wire_of start.now body.now) (length out.old) }
    ensures bytes { out.new ≡ written_bytes (wire_of start.now body.now) out.old }
{
    let k = start.len();
    if out.len() < k + 2 {
        return Err(EncodeError::NoRoom);
    }
    let e = out.len() - 2;
    let m = escaping::escape(body, &mut out[k..e])?;
    bracket(start, m, out);
    Ok(k + m + 2)
}

// Writes a body behind the start sequence of its address. Refused by 11, with `out` as it was.
fn write_body(number: u16, body: &[u8], out: &mut [u8]) -> Result<usize, EncodeError>
    requires { length body.now ≤ body_limit }
    ensures answer { handed result ≡ written_handed (wire_of (start_of number) body.now) (length out.old) }
    ensures bytes { out.new ≡ written_bytes (wire_of (start_of number) body.now) out.old }
{
    if number < 0x8000 {
        let start = [0x00, 0xff, 0xff, 0x7e, 0x07];
        enclose(&start, body, out)
    } else {
        let start = [0xff, 0x7e, 0x07];
        enclose(&start, body, out)
    }
}

// `encode` for an address that is good, by its 16 bits.
fn encode_numbered(
    number: u16,
    frame_type: u16,
    payload: &[u8],
    out: &mut [u8],
) -> Result<usize, EncodeError>
    ensures answer { handed result ≡ numbered_handed crc_of (frame_at number frame_type payload.now) (length out.old) }
    ensures bytes { out.new ≡ numbered_bytes crc_of (frame_at number frame_type payload.now) out.old }
{
    let n = payload.len();
    if PAYLOAD_LIMIT < n {
        return Err(EncodeError::TooLong);
    }
    let mut body = [0u8; 256];
    assemble(&mut body, number, frame_type, payload);
    let m = n + 6;
    write_body(number, &body[..m], out)
}

// Encodes a frame for the line, with its preamble, to the start of `out`. Refused by 13, then 10, then 11; a refusal leaves `out` as it was.
pub fn encode(
    address: Address,
    frame_type: Type,
    payload: &[u8],
    out: &mut [u8],
) -> Result<usize, EncodeError>
    ensures answer { handed result ≡ encode_handed crc_of address frame_type.0 payload.now (length out.old) }
    ensures bytes { out.new ≡ encode_bytes crc_of address frame_type.0 payload.now out.old }
{
    let number = u16::try_from(address)?;
    encode_numbered(number, frame_type.0, payload, out)
}
