// The 33 counters (`Counters` of transport/receiver.rs), by the source's names and in its order.
ghost use Rattle.std.specs.Prelude.{◌≡◌};
ghost use Rattle.answers.specs.Places.{place_of};

// How many there are.
pub const COUNT: usize = 33;

#[derive(Clone, Copy)]
pub enum Counter {
    UnhandledFrameType,
    InvalidReceiveRequest,
    ReceiveRequests,
    InvalidReceiveResponses,
    ReceiveResponseFromUnknownGateway,
    ReceiveResponses,
    ReceivePackets,
    ReceivePacketTooShort,
    InvalidCommandRequests,
    RetransmittedCommandRequests,
    CommandRequests,
    InvalidCommandResponses,
    RetransmittedCommandResponses,
    CommandResponses,
    PingRequests,
    PingResponses,
    EnumerationStartRequests,
    InvalidEnumerationStartRequest,
    EnumerationStartResponses,
    EnumerationRequests,
    EnumerationResponses,
    InvalidEnumerationResponses,
    VersionRequests,
    VersionResponses,
    InvalidVersionResponses,
    EnumerationEndRequests,
    EnumerationEndResponses,
    InvalidEnumerationEndResponses,
    AssignGatewayIdRequests,
    AssignGatewayIdResponses,
    IdentifyRequests,
    IdentifyResponses,
    InvalidIdentifyResponses,
}

impl Counter {
    // Its place in the array of counters.
    pub fn place(self) -> usize
        ensures { result ≡ place_of self }
    {
        self as usize
    }
}
