// The receiver with tallies that a host lends: thin functions above the by-value ones of link_receive and link_feed.
#![tactic(auto)]

ghost use Rattle.std.specs.Prelude.{◌≡◌};
ghost use Rattle.crc.specs.Crc.{crc_of};
ghost use Rattle.link_receive.specs.Step.{step_of};
ghost use Rattle.link_feed.specs.Feed.{feed_of};
ghost use Rattle.link_feed.specs.Tallies.{lent_to, Pushed, FedWith};

use link_feed::Fed;
use link_receive::{Receiver, Stepped, Tallies};

// The receiver with the tallies beside it in the place of its own.
fn with(r: Receiver, t: Tallies) -> Receiver
    ensures { result ≡ lent_to r t }
{
    Receiver { tallies: t, ..r }
}

// One byte, by value: the receiver's own tallies give way to those beside it.
fn step_with(r: Receiver, t: Tallies, b: u8) -> Stepped
    ensures { result ≡ step_of crc_of (lent_to r t) b }
{
    let q = with(r, t);
    q.push_u8(b)
}

// A slice, by value, in the same way.
fn feed_with(r: Receiver, t: Tallies, s: &[u8]) -> Fed
    ensures { result ≡ feed_of crc_of (lent_to r t) s.now }
{
    let q = with(r, t);
    link_feed::feed(q, s)
}

// One byte, with tallies that a host lends: they stand in the place of the receiver's own, and are updated in place. Refused by 12 as a
// step is; the lent tallies stay as they are then.
pub fn push_u8(t: &mut Tallies, r: Receiver, b: u8) -> Stepped
    ensures { Pushed crc_of t.old r b result t.new }
{
    let x = step_with(r, *t, b);
    *t = x.next.tallies;
    x
}

// A slice, up to the first frame handed out or its end, with tallies that a host lends, in the same way.
pub fn feed(t: &mut Tallies, r: Receiver, s: &[u8]) -> Fed
    ensures { FedWith crc_of t.old r s.now result t.new }
{
    let x = feed_with(r, *t, s);
    *t = x.next.tallies;
    x
}
