// Gateway link layer addresses (link/address.rs).
#![tactic(auto)]

ghost use Rattle.std.specs.Prelude.{◌≡◌, ◌+◌, ◌≤◌, get_or};
ghost use Rattle.laws.specs.Bytes.{of16};
ghost use Rattle.address.specs.Address.{gateway_of, is_from, number_of, address_of};
ghost use Rattle.address.specs.Handed.{MakesID, MakesNumber, MakesAddress, handed_bytes, bytes_handed};

const DIRECTION_BIT: u16 = 0x8000;

// The largest gateway ID.
pub const ID_LIMIT: u16 = 0x7fff;

// A 15-bit gateway ID.
#[derive(Clone, Copy, PartialEq, Eq)]
pub struct GatewayID(pub u16);

impl GatewayID {
    // The all-zeroes gateway address.
    pub const ZERO: Self = GatewayID(0);
}

// The refusal 13: a gateway ID above 7fff.
#[derive(Clone, Copy, PartialEq, Eq)]
pub struct InvalidGatewayID;

impl TryFrom<u16> for GatewayID {
    type Error = InvalidGatewayID;

    ghost try_from_gives = { MakesID };

    // The gateway ID of a number. Refused by 13 above 7fff.
    fn try_from(number: u16) -> Result<Self, InvalidGatewayID> {
        if ID_LIMIT < number {
            return Err(InvalidGatewayID);
        }
        Ok(GatewayID(number))
    }
}

// A gateway link layer address: `From` a gateway to the controller, or `To` it.
#[derive(Clone, Copy, PartialEq, Eq)]
pub enum Address {
    From(GatewayID),
    To(GatewayID),
}

// The direction bit of an address, if it is set.
fn direction_of(a: Address) -> u16
    ensures { (result + gateway_of a ≡ number_of a) × (result ≤ 0x8000) }
{
    match a {
        Address::From(_) => DIRECTION_BIT,
        Address::To(_) => 0,
    }
}

impl From<u16> for Address {
    ghost from_gives = { MakesAddress };

    // The address that 16 bits say.
    fn from(number: u16) -> Address {
        if number < DIRECTION_BIT {
            return Address::To(GatewayID(number));
        }
        Address::From(GatewayID(number - DIRECTION_BIT))
    }
}

impl TryFrom<Address> for u16 {
    type Error = InvalidGatewayID;

    ghost try_from_gives = { MakesNumber };

    // The 16 bits of an address. Refused by 13 if its ID is above 7fff.
    fn try_from(address: Address) -> Result<u16, InvalidGatewayID> {
        let id = address.gateway().0;
        if ID_LIMIT < id {
            return Err(InvalidGatewayID);
        }
        Ok(direction_of(address) + id)
    }
}

impl Address {
    // The gateway that an address names, whichever its direction.
    pub fn gateway(self) -> GatewayID
        ensures { result.0 ≡ gateway_of self }
    {
        match self {
            Address::From(id) => id,
            Address::To(id) => id,
        }
    }

    // Whether a frame of this address comes from its gateway.
    pub fn is_from(self) -> bool
        ensures { result ≡ is_from self }
    {
        match self {
            Address::From(_) => true,
            Address::To(_) => false,
        }
    }

    // The address that two bytes say, the higher first.
    pub fn from_be_bytes(bytes: [u8; 2]) -> Address
        ensures { result ≡ address_of (of16 (get_or bytes 0 0) (get_or bytes 1 0)) }
    {
        Address::from(u16::from_be_bytes(bytes))
    }

    // The two bytes of an address, the higher first. Refused by 13 if its ID is above 7fff.
    pub fn to_be_bytes(self) -> Result<[u8; 2], InvalidGatewayID>
        ensures { handed_bytes result ≡ bytes_handed self }
    {
        let number = u16::try_from(self)?;
        Ok(number.to_be_bytes())
    }
}
