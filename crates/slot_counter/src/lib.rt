// Slot counters (pv/link/slot_counter.rs): an epoch, of about a minute, and a slot number within it.
#![tactic(auto)]

ghost use Rattle.std.specs.Prelude.{◌≡◌, ◌≤◌};
ghost use Rattle.laws.specs.Bytes.{be16_at};
ghost use Rattle.slot_counter.specs.Slots.{new_of, epoch_of, slot_number_of, number_in, index_of, epoch_at, added_of, abs_of, slots_since_of};

use std::ops::{Add, AddAssign};

// A slot counter: the epoch in the two highest bits, the slot number in the other fourteen.
#[derive(Clone, Copy)]
pub struct SlotCounter(pub u16);

// An epoch of slot numbers, corresponding to approximately one minute of real time.
#[derive(Clone, Copy)]
pub enum SlotEpoch {
    Epoch0 = 0,
    Epoch4 = 1,
    Epoch8 = 2,
    EpochC = 3,
}

// A slot number: 0 to 11,999.
#[derive(Clone, Copy)]
pub struct SlotNumber(u16);

// A value over 11,999, which is no slot number.
#[derive(Clone, Copy, PartialEq, Eq)]
pub struct InvalidSlotNumber(pub u16);

impl TryFrom<u16> for SlotNumber {
    type Error = InvalidSlotNumber;

    ghost try_from_gives = { λ value result. result ≡ slot_number_of value };

    #[tactic(auto, unfolding(crate::specs::Slots::slot_number_of))]
    fn try_from(value: u16) -> Result<SlotNumber, InvalidSlotNumber> {
        if value <= 0x2edf {
            Ok(SlotNumber(value))
        } else {
            Err(InvalidSlotNumber(value))
        }
    }
}

impl SlotNumber {
    pub fn get(self) -> u16
        ensures { result ≡ self.0 }
    {
        self.0
    }
}

impl From<SlotNumber> for u16 {
    ghost from_gives = { λ number result. result ≡ number.0 };

    fn from(number: SlotNumber) -> u16 {
        number.get()
    }
}

impl SlotEpoch {
    // The epoch of an index, counted from 0; any index past 3 is the last epoch's.
    #[tactic(auto, unfolding(crate::specs::Slots::epoch_at))]
    pub fn at(index: u8) -> SlotEpoch
        ensures { result ≡ epoch_at index }
    {
        match index {
            0 => SlotEpoch::Epoch0,
            1 => SlotEpoch::Epoch4,
            2 => SlotEpoch::Epoch8,
            _ => SlotEpoch::EpochC,
        }
    }

    // Its index among the four, counted from 0.
    pub fn index(self) -> u8
        ensures { result ≡ index_of self }
    {
        self as u8
    }
}

// The epoch so many epochs on. Addition wraps.
impl Add<u8> for SlotEpoch {
    type Output = SlotEpoch;

    ghost add_gives = { λ epoch rhs result. result ≡ added_of epoch rhs };

    #[tactic(auto, unfolding(crate::specs::Slots::added_of))]
    fn add(self, rhs: u8) -> SlotEpoch {
        SlotEpoch::at(self.index().wrapping_add(rhs) % 4)
    }
}

// The same in place.
impl AddAssign<u8> for SlotEpoch {
    ghost add_assign_gives = { λ before rhs after. after ≡ added_of before rhs };

    fn add_assign(&mut self, rhs: u8) {
        *self = *self + rhs;
    }
}

// The slots from the start of Epoch0.
fn abs_slots(epoch: SlotEpoch, number: SlotNumber) -> u16
    requires { number.0 ≤ 11999 }
    ensures { result ≡ abs_of (index_of epoch) number.0 }
{
    u16::from(epoch.index()) * 12000 + number.0
}

impl SlotCounter {
    pub const ZERO: Self = SlotCounter(0);

    #[tactic(auto, unfolding(crate::specs::Slots::new_of))]
    pub fn new(epoch: SlotEpoch, number: SlotNumber) -> Self
        ensures { result.0 ≡ new_of epoch number.0 }
    {
        let high: u16 = match epoch {
            SlotEpoch::Epoch0 => 0x0000,
            SlotEpoch::Epoch4 => 0x4000,
            SlotEpoch::Epoch8 => 0x8000,
            SlotEpoch::EpochC => 0xc000,
        };
        SlotCounter(high | number.0)
    }

    // The counter that two bytes spell, the higher first.
    pub fn from_be_bytes(bytes: [u8; 2]) -> Self
        ensures { result.0 ≡ be16_at bytes 0 }
    {
        SlotCounter(u16::from_be_bytes(bytes))
    }

    #[tactic(auto, using(crate::proofs::Laws::high_bits), unfolding(crate::specs::Slots::epoch_at))]
    pub fn epoch(self) -> SlotEpoch
        ensures { result ≡ epoch_of self.0 }
    {
        match self.0 & 0xc000 {
            0x0000 => SlotEpoch::Epoch0,
            0x4000 => SlotEpoch::Epoch4,
            0x8000 => SlotEpoch::Epoch8,
            _ => SlotEpoch::EpochC,
        }
    }

    pub fn slot_number(self) -> Result<SlotNumber, InvalidSlotNumber>
        ensures { result ≡ slot_number_of (number_in self.0) }
    {
        SlotNumber::try_from(self.0 & 0x3fff)
    }

    // How many slots after `past` this counter is: 1 to 48,000, equal counters being 48,000 apart.
    // A bad slot number is told instead, this counter's before `past`'s.
    pub fn slots_since(self, past: SlotCounter) -> Result<u16, InvalidSlotNumber>
        ensures { result ≡ slots_since_of self.0 past.0 }
    {
        let now_abs = abs_slots(self.epoch(), self.slot_number()?);
        let past_abs = abs_slots(past.epoch(), past.slot_number()?);
        if now_abs > past_abs {
            let ahead = now_abs - past_abs;
            return Ok(ahead);
        }
        let around = 48000 - past_abs + now_abs;
        Ok(around)
    }
}
