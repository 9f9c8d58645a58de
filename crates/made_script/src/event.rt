//! The bytes of one event of a script, by docs/FORMATS.md.
ghost use Rattle.std.specs.Prelude.{◌≡◌, ◌++◌, ◌<◌, ◌^◌, length, OnOk};
ghost use Rattle.net_wire.specs.declared.dns.dns_type.DnsType.TheVariants.{A};
ghost use Rattle.host_model.specs.Script.{Event, Tick, Reset, Frame, Query, head_with};
ghost use Rattle.made_script.specs.Growing.{Gains};

use net_wire::NoMemory;

/// Appends an event that brings nothing but its time, in microseconds.
pub(crate) fn push_tick(bytes: &mut Vec<u8>, at_micros: u64) -> Result<(), NoMemory>
    ensures ok { OnOk result (Gains (record { at = at_micros; arrival = Tick }) bytes.old.items bytes.new.items) }
{
    push_head(bytes, 2, at_micros)
}

/// Appends a reset of the DHCP client.
pub(crate) fn push_reset(bytes: &mut Vec<u8>, at_micros: u64) -> Result<(), NoMemory>
    ensures ok { OnOk result (Gains (record { at = at_micros; arrival = Reset }) bytes.old.items bytes.new.items) }
{
    push_head(bytes, 4, at_micros)
}

/// Appends a frame that arrives.
pub(crate) fn push_frame(bytes: &mut Vec<u8>, at_micros: u64, frame: &[u8]) -> Result<(), NoMemory>
    requires { length frame.now < 2 ^ 16 }
    ensures ok { OnOk result (Gains (record { at = at_micros; arrival = Frame frame.now })
        bytes.old.items bytes.new.items) }
{
    push_head(bytes, 1, at_micros)?;
    push_bytes(bytes, &(frame.len() as u16).to_be_bytes())?;
    push_bytes(bytes, frame)
}

/// Appends a query for the IPv4 addresses of a name.
pub(crate) fn push_query(bytes: &mut Vec<u8>, at_micros: u64, name: &str) -> Result<(), NoMemory>
    requires { length name.now < 2 ^ 8 }
    ensures ok { OnOk result (Gains (record { at = at_micros; arrival = Query A name.now })
        bytes.old.items bytes.new.items) }
{
    push_head(bytes, 3, at_micros)?;
    push_bytes(bytes, &[name.len() as u8])?;
    push_bytes(bytes, name.as_bytes())
}

/// Appends the kind and the time of an event.
fn push_head(bytes: &mut Vec<u8>, kind: u8, at_micros: u64) -> Result<(), NoMemory>
    ensures ok { OnOk result (bytes.new.items ≡ bytes.old.items ++ head_with kind at_micros) }
{
    push_bytes(bytes, &[kind])?;
    push_bytes(bytes, &at_micros.to_be_bytes())
}

fn push_bytes(bytes: &mut Vec<u8>, piece: &[u8]) -> Result<(), NoMemory>
    ensures ok { OnOk result (bytes.new.items ≡ bytes.old.items ++ piece.now) }
{
    match bytes.extend_from_slice(piece) {
        Ok(()) => Ok(()),
        Err(_) => Err(NoMemory),
    }
}
