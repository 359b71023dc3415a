// The common header of a BMP message (RFC 7854, section 4.1).
#![tactic(auto)]

ghost use Rattle.std.specs.Prelude.{◌≡◌};
ghost use Rattle.common_header.specs.Shown.{kind_of};
ghost use Rattle.common_header.specs.Fields.{read_fields, read_common_fields};
ghost use Rattle.common_header.specs.Read.{judged, read_common_header};

use cursor::Cursor;
use wire::Refusal;

#[derive(Clone, Copy)]
pub enum BmpMsgType {
    RouteMonitoring,
    StatisticsReport,
    PeerDownNotification,
    PeerUpNotification,
    InitiationMessage,
    TerminationMessage,
    RouteMirroringMessage,
}

// The version of BMP that RFC 7854 describes, and the only one that is read.
pub const VERSION: u8 = 3;

// How many bytes the header takes.
pub const COMMON_HEADER: usize = 6;

#[derive(Clone, Copy)]
pub struct BmpCommonHeader {
    pub version: u8,
    pub msg_len: u32,
    pub msg_type: BmpMsgType,
}

// Version, length and type as they stand there: the type may be any number.
#[derive(Clone, Copy)]
pub struct CommonFields {
    pub version: u8,
    pub msg_len: u32,
    pub kind: u8,
}

// Reads the header at the front of the bytes, and hands back the place after it too; whether the rest of the message is there is not asked.
pub fn parse_bmp_common_header(s: &[u8]) -> Result<(BmpCommonHeader, usize), Refusal>
    ensures { result ≡ read_common_header s.now }
{
    parse_common_fields(s)?.header()
}

// Reads the header's fields, behind which the message goes on at 6, and does not judge the type: who ignores messages of unknown types has their
// length from here.
pub fn parse_common_fields(s: &[u8]) -> Result<CommonFields, Refusal>
    ensures { result ≡ read_common_fields s.now }
{
    if wire::LIMIT < s.len() {
        return Err(wire::refusal_at(wire::TOO_LONG, 0));
    }
    read_fields(s)
}

#[tactic(auto, unfolding(crate::specs::Fields::read_fields))]
fn read_fields(s: &[u8]) -> Result<CommonFields, Refusal>
    ensures { result ≡ read_fields s.now }
{
    let start = Cursor { at: 0 };
    let (version, after_version) = start.read::<u8>(s)?;
    if version != VERSION {
        return Err(wire::refusal_at(wire::BAD_VERSION, 0));
    }
    let (msg_len, after_length) = after_version.read::<u32>(s)?;
    let (kind, _) = after_length.read::<u8>(s)?;
    Ok(CommonFields {
        version,
        msg_len,
        kind,
    })
}

impl CommonFields {
    // The header with the name of its type, and the place after it; UnknownKind where the type has no name.
    pub fn header(self) -> Result<(BmpCommonHeader, usize), Refusal>
        ensures { result ≡ judged self }
    {
        let header = BmpCommonHeader {
            version: self.version,
            msg_len: self.msg_len,
            msg_type: BmpMsgType::try_from(self.kind)?,
        };
        Ok((header, COMMON_HEADER))
    }
}

impl TryFrom<u8> for BmpMsgType {
    ghost use Rattle.std.specs.Prelude.{◌≡◌};
    ghost use Rattle.common_header.specs.Shown.{type_named};

    type Error = Refusal;

    ghost try_from_gives = { λ kind answer. answer ≡ type_named kind };

    // The type with this number, or UnknownKind at the place where the number stands in a header.
    #[tactic(auto, unfolding(crate::specs::Shown::type_of))]
    fn try_from(kind: u8) -> Result<BmpMsgType, Refusal> {
        match kind {
            0 => Ok(BmpMsgType::RouteMonitoring),
            1 => Ok(BmpMsgType::StatisticsReport),
            2 => Ok(BmpMsgType::PeerDownNotification),
            3 => Ok(BmpMsgType::PeerUpNotification),
            4 => Ok(BmpMsgType::InitiationMessage),
            5 => Ok(BmpMsgType::TerminationMessage),
            6 => Ok(BmpMsgType::RouteMirroringMessage),
            _ => Err(wire::refusal_at(wire::UNKNOWN_KIND, 5)),
        }
    }
}

// The number that stands for a type on the wire.
#[tactic(auto, unfolding(crate::specs::Shown::kind_of))]
pub fn kind_of(msg_type: BmpMsgType) -> u8
    ensures { result ≡ kind_of msg_type }
{
    match msg_type {
        BmpMsgType::RouteMonitoring => 0,
        BmpMsgType::StatisticsReport => 1,
        BmpMsgType::PeerDownNotification => 2,
        BmpMsgType::PeerUpNotification => 3,
        BmpMsgType::InitiationMessage => 4,
        BmpMsgType::TerminationMessage => 5,
        BmpMsgType::RouteMirroringMessage => 6,
    }
}
