//! Laws over the definitions.
ghost use Rattle.std.specs.Prelude.{◌≡◌, pos, replicate};
ghost use Rattle.host_model.specs.AnswerExamples.{AnswersByExample, ReachesByExample};
ghost use Rattle.host_model.specs.Chronicle.{GrowsByEntry};
ghost use Rattle.host_model.specs.Classes.{IsOneOfThree};
ghost use Rattle.host_model.specs.Examples.{SendsAtReset, SendsAtEachReset, SendsEveryTimeout};
ghost use Rattle.host_model.specs.Foreign.{ForeignFramesChangeNothing};
ghost use Rattle.host_model.specs.ForeignExamples.{ForeignByExample};
ghost use Rattle.host_model.specs.HopExamples.{NetworksByExample, NeighborsByExample, BroadcastsByExample};
ghost use Rattle.host_model.specs.Hops.{NetworksArePrefixes, HopsAreNeighbors, HopsAreKnown};
ghost use Rattle.host_model.specs.KindsAdded.{KindsAreAdded};
ghost use Rattle.host_model.specs.LastLease.{LeasesAreLastAcknowledgements};
ghost use Rattle.host_model.specs.LastLeaseExamples.{LeasesLastByExample};
ghost use Rattle.host_model.specs.LastLoss.{LossesAreLast};
ghost use Rattle.host_model.specs.LastOffer.{OffersAreLast, ClientsAcceptInTurn};
ghost use Rattle.host_model.specs.LifeExamples.{RequestsAtOnce, EndsRetries, Leases, EndsAtOnce, LosesByReset};
ghost use Rattle.host_model.specs.LookExamples.{TurnsByExample, EndsByExample};
ghost use Rattle.host_model.specs.Parts.{NoEventIsRefused};
ghost use Rattle.host_model.specs.QueryEnds.{OneLineEach, SlotsAreKept};
ghost use Rattle.host_model.specs.QueryLifeExamples.{AnswersQuery, CountsQuery, EndsQuery, RefusesQuery};
ghost use Rattle.host_model.specs.QuerySends.{AskedLast, FourFramesToAPlace, FourMessagesToAPlace, ScriptsRise};
ghost use Rattle.host_model.specs.RenewalExamples.{Asks, Forgets, Renews, RenewsAtEnd};
ghost use Rattle.host_model.specs.ReplyExamples.{HearsWholeFrames, Refuses, Replies};
ghost use Rattle.host_model.specs.Roots.{AnchorsAreRooted};
ghost use Rattle.host_model.specs.Script.{BeginsWithOne};
ghost use Rattle.host_model.specs.Sizes.{ListedFitsFrames};
ghost use Rattle.host_model.specs.StartExamples.{StartsByExample, RequestsByExample, LinesByExample};
ghost use Rattle.host_model.specs.TickScripts.{TicksAreScripts};
ghost use Rattle.host_model.specs.WalkExamples.{WalksByExample, UnknownByExample, RequestsOnceByExample};

use net_wire::{EthernetAddress, Instant, Ipv4Address};

/// The bytes of a script are of one class: valid, over the limit, or broken, and then at one place.
pub fn one_of_three()
    ensures { IsOneOfThree }
{}

/// Bytes begin with one event at most.
pub fn begins_with_one()
    ensures { BeginsWithOne }
{}

/// Bytes whose parts are refused, or that end inside an event, begin no event.
pub fn no_event_is_refused()
    ensures { NoEventIsRefused }
{}

/// A list of ticks whose times are in range and never fall, at most as many as there may be, is a script of
/// them and of no other events.
pub fn ticks_are_scripts()
    ensures { TicksAreScripts }
{}

/// Queries change the class only of bytes that are broken where one of their kinds stands.
pub fn kinds_are_added()
    ensures { KindsAreAdded }
{}

/// Closed examples: the event of a reset sends at once, and the timeout counts from its message.
pub fn resets_send_at_once()
    ensures at_reset { SendsAtReset }
    ensures at_each { SendsAtEachReset }
    ensures without { SendsEveryTimeout }
{}

/// What is sent in an event is found from the entries before it: no later event changes it.
pub fn grows_by_entry()
    ensures { GrowsByEntry }
{}

/// The addresses on the network of a held address are those that begin with its prefix.
pub fn networks_are_prefixes()
    ensures { NetworksArePrefixes }
{}

/// The hop at an address is known exactly where a packet told of it in the last 60 seconds, and is
/// what the last one told.
pub fn hops_are_neighbors()
    ensures { HopsAreNeighbors }
{}

/// The hop of a destination is known exactly where the destination is all hosts of the link, or
/// where the station told that its datagrams go to next.
pub fn hops_are_known()
    ensures { HopsAreKnown }
{}

/// Closed examples: prefixes of no, of some and of all bits; how long a station is known, and by
/// which of two packets; the address of all hosts of the link, as a destination and as a router's.
pub fn hops_by_example()
    ensures networks { NetworksByExample }
    ensures neighbors { NeighborsByExample }
    ensures broadcasts { BroadcastsByExample }
{}

/// What an anchor says is what the events at its places brought.
pub fn anchors_are_rooted()
    ensures { AnchorsAreRooted }
{}

/// After every event the leased address is that of the last accepted acknowledgement, while its lease
/// runs and nothing took it back, and else there is none.
pub fn leases_are_last_acknowledgements()
    ensures { LeasesAreLastAcknowledgements }
{}

/// After every event the client goes by the last accepted offer, while its requests may still be
/// answered and nothing took it back.
pub fn offers_are_last()
    ensures { OffersAreLast }
{}

/// Without an offer and a lease the client goes by the start or by the last event that lost what there
/// was, until an offer comes.
pub fn losses_are_last()
    ensures { LossesAreLast }
{}

/// An acknowledgement is accepted exactly with an offer or a lease, and an offer exactly without both.
pub fn clients_accept_in_turn()
    ensures { ClientsAcceptInTurn }
{}

/// A frame that is not for the host changes nothing: with a tick in its place every event has the
/// same effect.
pub fn foreign_frames_change_nothing()
    ensures { ForeignFramesChangeNothing }
{}

/// All that is listed has the sizes of its fields, whatever arrived.
pub fn listed_fits_frames()
    ensures { ListedFitsFrames }
{}

/// Closed examples: which frames are not for the host.
pub fn foreign_by_example()
    ensures { ForeignByExample }
{}

/// Closed examples: an offer is requested, and a lease begins.
pub fn leases_begin()
    ensures at_once { RequestsAtOnce }
    ensures retries { EndsRetries }
    ensures leases { Leases }
    ensures at_end { EndsAtOnce }
    ensures reset { LosesByReset }
{}

/// Closed examples: how long the lease of an acknowledgement lasts, and which acknowledgements lease
/// nothing.
pub fn leases_last_by_example()
    ensures { LeasesLastByExample }
{}

/// Closed examples: a lease is renewed, to the server where its station is known, and ends.
pub fn leases_are_renewed()
    ensures renews { Renews }
    ensures at_end { RenewsAtEnd }
    ensures asks { Asks }
    ensures forgets { Forgets }
{}

/// Closed examples: which frames count, and which get a reply.
pub fn frames_count()
    ensures whole { HearsWholeFrames }
    ensures refuses { Refuses }
    ensures replies { Replies }
{}

/// The constants of addresses are all stations of a link (IEEE 802.3, section 3.2.3), no address and all
/// hosts of a link (RFC 1122, section 3.2.1.3).
pub fn constants()
    ensures all_stations { EthernetAddress.BROADCAST.0 ≡ replicate 6 255 }
    ensures no_address { Ipv4Address.UNSPECIFIED.0 ≡ replicate 4 0 }
    ensures all_hosts { Ipv4Address.BROADCAST.0 ≡ replicate 4 255 }
{}

/// The constant `Instant::ZERO` is moment 0.
pub fn moment_zero() -> Instant
    ensures { result ≡ pos 0 }
{
    Instant::ZERO
}

/// Closed examples: when a query is asked, at which server, and when it ends; which slots are looked at,
/// and what an unknown hop ends.
pub fn queries_are_looked_at()
    ensures turns { TurnsByExample }
    ensures ends { EndsByExample }
    ensures walks { WalksByExample }
    ensures unknown { UnknownByExample }
    ensures requests { RequestsOnceByExample }
{}

/// Closed examples: which responses reach a query, and which queries they end.
pub fn queries_are_answered()
    ensures answers { AnswersByExample }
    ensures reaches { ReachesByExample }
{}

/// Closed examples: how queries begin, and in which order those that ended are told of.
pub fn queries_begin()
    ensures starts { StartsByExample }
    ensures requests { RequestsByExample }
    ensures lines { LinesByExample }
{}

/// Closed examples: the frames and the lines of queries in whole lives of a host.
pub fn queries_live()
    ensures answers { AnswersQuery }
    ensures ends { EndsQuery }
    ensures refuses { RefusesQuery }
    ensures counts { CountsQuery }
{}

/// The events of a script give entries whose times never fall.
pub fn scripts_rise()
    ensures { ScriptsRise }
{}

/// A query sends at most four messages to one place of its list, by events whose times never fall.
pub fn four_messages_to_a_place()
    ensures { FourMessagesToAPlace }
{}

/// At most four of the frames that events list are of one query and one place, by events whose times never fall.
pub fn four_frames_to_a_place()
    ensures { FourFramesToAPlace }
{}

/// The server that the looks at a query say it asked last is the one that its last message went to.
pub fn asked_last()
    ensures { AskedLast }
{}

/// Each query event has one line among those of all events, or its query still waits.
pub fn one_line_each()
    ensures { OneLineEach }
{}

/// There are always 16 slots, and no two queries that wait have one number.
pub fn slots_are_kept()
    ensures { SlotsAreKept }
{}
