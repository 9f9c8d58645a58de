//! The types of records.

/// What a record holds, or a question asks for (RFC 1035, section 3.2.2; AAAA by RFC 3596, section 2.1).
#[derive(Clone, Copy, Debug, PartialEq, Eq, Hash, PartialOrd, Ord)]
pub enum DnsType {
    /// An IPv4 address.
    A,
    /// A name server.
    Ns,
    /// The name that an alias stands for.
    Cname,
    /// The start of a zone of authority.
    Soa,
    /// An IPv6 address.
    Aaaa,
    /// A number that names none of these.
    Unknown(u16),
}

impl DnsType {
    ghost use Rattle.std.specs.Prelude.{◌≡◌};
    ghost use Rattle.net_wire.specs.DnsMessage.{type_number};

    /// The number that stands in a message.
    pub fn number(self) -> u16
        ensures { result ≡ type_number self }
    {
        match self {
            DnsType::A => 1,
            DnsType::Ns => 2,
            DnsType::Cname => 5,
            DnsType::Soa => 6,
            DnsType::Aaaa => 28,
            DnsType::Unknown(number) => number,
        }
    }
}

impl From<u16> for DnsType {
    ghost use Rattle.std.specs.Prelude.{◌≡◌};
    ghost use Rattle.net_wire.specs.DnsMessage.{type_of_number};

    ghost from_gives = { λ number type_. type_ ≡ type_of_number number };

    fn from(number: u16) -> DnsType {
        match number {
            1 => DnsType::A,
            2 => DnsType::Ns,
            5 => DnsType::Cname,
            6 => DnsType::Soa,
            28 => DnsType::Aaaa,
            _ => DnsType::Unknown(number),
        }
    }
}
