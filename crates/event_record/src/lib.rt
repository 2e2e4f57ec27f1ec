// Event records, a house form: the record of each kind of event. Whether one is sound is told by crates/sound_record.
#![tactic(auto)]

ghost use Rattle.std.specs.Prelude.{◌≡◌, ◌+◌, ◌≤◌, ◌&&◌, leb, length, IfSome};
ghost use Rattle.std.specs.Bool.{then_some};
ghost use Rattle.laws.specs.Bytes.{laid_over};
ghost use Rattle.sound_record.specs.Kinds.{number_of};
ghost use Rattle.sound_record.specs.Record.{written};
ghost use Rattle.words.specs.Words.{copied_in};
ghost use Rattle.event_record.specs.Layout.{head_of};
ghost use Rattle.event_record.specs.Event.{enumeration_started, identity, version_text, enumeration_ended, slot_captured, slot_counter, packet, command, body_of};
ghost use Rattle.event_record.specs.Handed.{handed, admitted, framed_handed, framed_bytes, record_handed, record_bytes};

use address::{GatewayID, ID_LIMIT};
use sound_record::{BODY_AT, Kind, VERSION};
use words::{copy_in, high, low};

// How many bytes of a record follow its length before the body: version, kind and gateway.
const AHEAD: usize = 4;

// Where the request payload of a command starts: behind the request's type and length.
const REQUEST_AT: usize = 8;

// How many bytes a command's record has beside its two payloads.
const COMMAND_SIZE: usize = 9;

// Why no record is written: the refusals 13, 41 and 40.
#[derive(Clone, Copy, PartialEq, Eq)]
pub enum RecordError {
    InvalidGatewayID,
    Unsound,
    NoRoom,
}

// How many bytes a record has whose body has so many, or whose body is not sound. Refused by 13, 41, then 40.
fn admit(gateway: GatewayID, body: Option<usize>, room: usize) -> Result<usize, RecordError>
    requires { IfSome body (λ n. n ≤ 1025) }
    ensures { handed result ≡ admitted gateway.0 body room }
{
    if ID_LIMIT < gateway.0 {
        return Err(RecordError::InvalidGatewayID);
    }
    let size = BODY_AT + body.ok_or(RecordError::Unsound)?;
    if room < size {
        return Err(RecordError::NoRoom);
    }
    Ok(size)
}

// Writes what stands before a body of `n` bytes.
fn put_head(out: &mut [u8], kind: Kind, gateway: GatewayID, n: usize)
    requires { (n ≤ 1025) × (6 ≤ length out.old) }
    ensures { out.new ≡ laid_over (head_of written (number_of kind) gateway.0 n) out.old }
{
    let m = (AHEAD + n) as u16;
    let g = gateway.0;
    let head = [high(m), low(m), VERSION, u8::from(kind), high(g), low(g)];
    copy_in(out, 0, &head);
}

// Writes the record of a kind and a body. A refusal leaves `out` as it was.
fn write(out: &mut [u8], kind: Kind, gateway: GatewayID, body: &[u8]) -> Result<usize, RecordError>
    ensures answer { handed result ≡ framed_handed (number_of kind) gateway.0 body.now (length out.old) }
    ensures bytes { out.new ≡ framed_bytes (number_of kind) gateway.0 body.now out.old }
{
    let n = body.len();
    let size = admit(gateway, kind.allows(body).then_some(n), out.len())?;
    put_head(out, kind, gateway, n);
    copy_in(out, BODY_AT, body);
    Ok(size)
}

// Kind 1: enumeration started; the gateway is the one that the request names.
pub fn enumeration_started(out: &mut [u8], gateway: GatewayID) -> Result<usize, RecordError>
    ensures answer { handed result ≡ record_handed gateway.0 enumeration_started (length out.old) }
    ensures bytes { out.new ≡ record_bytes gateway.0 enumeration_started out.old }
{
    write(out, Kind::EnumerationStarted, gateway, b"")
}

// Kind 2: identity; a long address has eight bytes.
pub fn identity(out: &mut [u8], gateway: GatewayID, address: &[u8]) -> Result<usize, RecordError>
    ensures answer { handed result ≡ record_handed gateway.0 (identity address.now) (length out.old) }
    ensures bytes { out.new ≡ record_bytes gateway.0 (identity address.now) out.old }
{
    write(out, Kind::Identity, gateway, address)
}

// Kind 3: version text, which is non-empty UTF-8.
pub fn version(out: &mut [u8], gateway: GatewayID, text: &[u8]) -> Result<usize, RecordError>
    ensures answer { handed result ≡ record_handed gateway.0 (version_text text.now) (length out.old) }
    ensures bytes { out.new ≡ record_bytes gateway.0 (version_text text.now) out.old }
{
    write(out, Kind::VersionText, gateway, text)
}

// Kind 4: enumeration ended.
pub fn enumeration_ended(out: &mut [u8], gateway: GatewayID) -> Result<usize, RecordError>
    ensures answer { handed result ≡ record_handed gateway.0 enumeration_ended (length out.old) }
    ensures bytes { out.new ≡ record_bytes gateway.0 enumeration_ended out.old }
{
    write(out, Kind::EnumerationEnded, gateway, b"")
}

// Kind 5: slot captured.
pub fn slot_captured(out: &mut [u8], gateway: GatewayID) -> Result<usize, RecordError>
    ensures answer { handed result ≡ record_handed gateway.0 slot_captured (length out.old) }
    ensures bytes { out.new ≡ record_bytes gateway.0 slot_captured out.old }
{
    write(out, Kind::SlotCaptured, gateway, b"")
}

// Kind 6: slot counter and repeat mark.
pub fn slot_counter(
    out: &mut [u8],
    gateway: GatewayID,
    counter: u16,
    repeat: bool,
) -> Result<usize, RecordError>
    ensures answer { handed result ≡ record_handed gateway.0 (slot_counter counter repeat) (length out.old) }
    ensures bytes { out.new ≡ record_bytes gateway.0 (slot_counter counter repeat) out.old }
{
    let body = [high(counter), low(counter), u8::from(repeat)];
    write(out, Kind::SlotCounter, gateway, &body)
}

// Kind 7: one whole packet, as it stood in the area.
pub fn packet(out: &mut [u8], gateway: GatewayID, bytes: &[u8]) -> Result<usize, RecordError>
    ensures answer { handed result ≡ record_handed gateway.0 (packet bytes.now) (length out.old) }
    ensures bytes { out.new ≡ record_bytes gateway.0 (packet bytes.now) out.old }
{
    write(out, Kind::Packet, gateway, bytes)
}

// How many bytes a command's body has, if the lengths fit: a byte says that of the request payload.
fn command_size(request: &[u8], response: &[u8]) -> Option<usize>
    ensures { result ≡ then_some (leb (length request.now) 255 && leb (length request.now + length response.now) 1022) (3 + length request.now + length response.now) }
{
    if 255 < request.len() || 1022 < response.len() {
        return None;
    }
    let n = 3 + request.len() + response.len();
    (n <= 1025).then_some(n)
}

// Writes the body of a command, whose lengths fit, behind the six bytes before it.
fn put_command(out: &mut [u8], asked: u8, request: &[u8], answered: u8, response: &[u8])
    requires { (length request.now ≤ 255) × (9 + length request.now + length response.now ≤ length out.old) }
    ensures { out.new ≡ copied_in out.old 6 (body_of written (command asked request.now answered response.now)) }
{
    let n = request.len();
    let first = [asked, n as u8];
    let second = [answered];
    copy_in(out, BODY_AT, &first);
    copy_in(out, REQUEST_AT, request);
    copy_in(out, REQUEST_AT + n, &second);
    copy_in(out, COMMAND_SIZE + n, response);
}

// Kind 8: command: a request's type and payload, and its response's. Refused by 41 too if the request payload has more than 255 bytes.
pub fn command(
    out: &mut [u8],
    gateway: GatewayID,
    asked: u8,
    request: &[u8],
    answered: u8,
    response: &[u8],
) -> Result<usize, RecordError>
    ensures answer { handed result ≡ record_handed gateway.0 (command asked request.now answered response.now) (length out.old) }
    ensures bytes { out.new ≡ record_bytes gateway.0 (command asked request.now answered response.now) out.old }
{
    let size = admit(gateway, command_size(request, response), out.len())?;
    put_head(out, Kind::Command, gateway, size - BODY_AT);
    put_command(out, asked, request, answered, response);
    Ok(size)
}
