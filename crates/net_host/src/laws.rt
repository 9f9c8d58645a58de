//! Laws over the definitions.
ghost use Rattle.net_host.specs.Config.{DefaultsAreAccepted, RequestsHaveOneLength};
ghost use Rattle.net_host.specs.ConfigExamples.{LinkEdges, LeastTimeouts, GreatestTimeouts};
ghost use Rattle.net_host.specs.ConfigExamples.{RetriesEdges, PortEdges, ListEdges, TellsFirst};
ghost use Rattle.net_host.specs.ForeignRows.{ForeignFramesChangeNoRow};
ghost use Rattle.net_host.specs.IgnoredRows.{IgnoredFramesChangeNoRow};
ghost use Rattle.net_host.specs.ListedCut.{RowsAreCut};
ghost use Rattle.net_host.specs.QueryRows.{RowsAskFourTimes, RowsHaveOneLineEach};

/// The default values are accepted with the address of any station, any MTU from 576 to 1500, any
/// cap on leases, and either rule for refusals of servers.
#[tactic(auto, using(crate::proofs::SettingsLemmas::defaults_accepted))]
pub fn defaults_are_accepted()
    ensures { DefaultsAreAccepted }
{}

/// The datagram of a request has one length, whatever its server, addresses and id are.
#[tactic(auto, using(crate::proofs::SettingsLemmas::requests_alike))]
pub fn requests_have_one_length()
    ensures { RequestsHaveOneLength }
{}

/// The frames of each row are cut by the grammar of packets, without a stop, to their last byte and
/// in no other way, into what its event lists.
#[tactic(auto, using(crate::proofs::CutLemmas::rows_are_cut))]
pub fn rows_are_cut()
    ensures { RowsAreCut }
{}

/// A frame that is not for the host changes no time, lease, frame or line of a query in any row: with a
/// tick at its time in its place, every row has the same ones.
#[tactic(auto, using(crate::proofs::ForeignRowLemmas::rows_stay))]
pub fn foreign_frames_change_no_row()
    ensures { ForeignFramesChangeNoRow }
{}

/// Frames that are ignored, some of them or all, change no row and no record of the capture but their own: with ticks at
/// their times in their places, every other row is the same, and that of a tick says the same.
#[tactic(auto, using(crate::proofs::IgnoredRowLemmas::rows_stay))]
pub fn ignored_frames_change_no_row()
    ensures { IgnoredFramesChangeNoRow }
{}

/// A script's rows have at most four frames of one query to one place of its list of name servers.
pub fn rows_ask_four_times()
    ensures { RowsAskFourTimes }
{}

/// Of each query event the rows have one line, or its query still waits behind the last event; no number has two.
pub fn rows_have_one_line_each()
    ensures { RowsHaveOneLineEach }
{}

/// Closed examples: of each value one that is just accepted and one that is just refused.
#[tactic(auto, unfolding(crate::specs::Config::refusal_of, net_wire::specs::DhcpBytes::message_bytes, net_wire::specs::DhcpBytes::header_bytes, net_wire::specs::DhcpBytes::options_bytes))]
pub fn edges_by_example()
    ensures link { LinkEdges }
    ensures short { LeastTimeouts }
    ensures long { GreatestTimeouts }
    ensures retries { RetriesEdges }
    ensures ports { PortEdges }
    ensures lists { ListEdges }
{}

/// A closed example: where all values are refused the first one is told, and once that is mended
/// the next one.
#[tactic(auto, unfolding(crate::specs::Config::refusal_of, net_wire::specs::DhcpBytes::message_bytes, net_wire::specs::DhcpBytes::header_bytes, net_wire::specs::DhcpBytes::options_bytes))]
pub fn first_refusal_by_example()
    ensures { TellsFirst }
{}
