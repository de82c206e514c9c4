// Document 01, "Replay records", with the devices of document 02, request (vii): the call that a record stands for, read from bytes,
// and in `lines` the text that is written for it.
#![tactic(auto, unfolding(crate::specs::Records::body_length, crate::specs::Records::body_at, crate::specs::Records::body_of, crate::specs::Records::bodies, crate::specs::Records::sum, crate::specs::Records::numbers))]

ghost use Rattle.std.specs.Prelude.{◌≡◌, ◌+◌, ◌≤◌, length};
ghost use Rattle.records.specs.Records.{little, byte_of, IsKindOf, body_length, body_at, decode_at};

pub mod lines;

use frames::Frame;
use rules::{Call, Request};

// Why no call stands at an offset.
#[derive(Clone, Copy, Debug, PartialEq, Eq)]
pub enum Undecoded {
    // A byte that is no kind.
    Unknown,
    // The bytes end before the body does.
    Cut,
}

// The kinds of records, each with its number, the byte that a record begins with.
#[derive(Clone, Copy, Debug, PartialEq, Eq)]
pub enum Kind {
    Boot = 0,
    PutMovable = 1,
    PutFixed = 2,
    Drop = 3,
    Pin = 4,
    Unpin = 5,
    Store = 6,
    Read = 7,
    Grant = 8,
    Release = 9,
    DeviceStore = 10,
    DeviceRead = 11,
    Declare = 12,
}

impl TryFrom<u8> for Kind {
    type Error = Undecoded;

    ghost try_from_gives = { IsKindOf };

    fn try_from(number: u8) -> Result<Kind, Undecoded> {
        match number {
            0 => Ok(Kind::Boot),
            1 => Ok(Kind::PutMovable),
            2 => Ok(Kind::PutFixed),
            3 => Ok(Kind::Drop),
            4 => Ok(Kind::Pin),
            5 => Ok(Kind::Unpin),
            6 => Ok(Kind::Store),
            7 => Ok(Kind::Read),
            8 => Ok(Kind::Grant),
            9 => Ok(Kind::Release),
            10 => Ok(Kind::DeviceStore),
            11 => Ok(Kind::DeviceRead),
            12 => Ok(Kind::Declare),
            _ => Err(Undecoded::Unknown),
        }
    }
}

impl Kind {
    // The length of a body, which the kind fixes. No body is empty.
    pub fn body_length(self) -> usize
        ensures { result ≡ body_length (byte_of self) }
    {
        match self {
            Kind::Boot => 13,
            Kind::PutMovable | Kind::PutFixed | Kind::Drop | Kind::Pin | Kind::Unpin | Kind::Read =>
                4,
            Kind::Store => 12,
            Kind::Grant => 8,
            Kind::Release => 15,
            Kind::DeviceStore => 18,
            Kind::DeviceRead => 10,
            Kind::Declare => 34,
        }
    }
}

// The length of the body that a byte announces; 0 for a byte that is no kind, since no body is empty.
pub fn body_length(kind: u8) -> usize
    ensures { result ≡ body_length kind }
{
    match Kind::try_from(kind) {
        Ok(known) => known.body_length(),
        Err(_) => 0,
    }
}

// The number in the `width` bytes from `at` on, the lowest byte first. Every width is read by this loop, from the highest byte down.
fn number(bytes: &[u8], at: usize, width: usize) -> u64
    requires { (at + width ≤ length bytes.now) × (width ≤ 8) }
    ensures { result ≡ little bytes.now at width }
{
    let mut value: u64 = 0;
    for byte in bytes[at..at + width].iter().rev() {
        value = value * 256 + u64::from(*byte);
    }
    value
}

fn boot(body: &[u8]) -> Call
    requires { 13 ≤ length body.now }
    ensures { result ≡ body_at 0 body.now 0 }
{
    Call::Boot {
        base: Frame(number(body, 0, 8)),
        frames: number(body, 8, 4),
        block_order: number(body, 12, 1),
    }
}

fn store(body: &[u8]) -> Call
    requires { 12 ≤ length body.now }
    ensures { result ≡ body_at 6 body.now 0 }
{
    Call::Store {
        name: number(body, 0, 4),
        word: number(body, 4, 8),
    }
}

fn grant(body: &[u8]) -> Call
    requires { 8 ≤ length body.now }
    ensures { result ≡ body_at 8 body.now 0 }
{
    Call::Grant {
        area: number(body, 0, 1),
        count: number(body, 2, 4),
        align: number(body, 1, 1),
        device: number(body, 6, 2),
    }
}

fn release(body: &[u8]) -> Call
    requires { 15 ≤ length body.now }
    ensures { result ≡ body_at 9 body.now 0 }
{
    Call::Release {
        area: number(body, 0, 1),
        frame: Frame(number(body, 1, 8)),
        count: number(body, 9, 4),
        device: number(body, 13, 2),
    }
}

fn device_store(body: &[u8]) -> Call
    requires { 18 ≤ length body.now }
    ensures { result ≡ body_at 10 body.now 0 }
{
    Call::DeviceStore {
        frame: Frame(number(body, 0, 8)),
        word: number(body, 8, 8),
        device: number(body, 16, 2),
    }
}

fn device_read(body: &[u8]) -> Call
    requires { 10 ≤ length body.now }
    ensures { result ≡ body_at 11 body.now 0 }
{
    Call::DeviceRead {
        frame: Frame(number(body, 0, 8)),
        device: number(body, 8, 2),
    }
}

fn declare(body: &[u8]) -> Call
    requires { 34 ≤ length body.now }
    ensures { result ≡ body_at 12 body.now 0 }
{
    let request = Request {
        base: number(body, 0, 8),
        size: number(body, 8, 8),
        limit: number(body, 16, 8),
        alignment: number(body, 24, 8),
        order_per_bit: number(body, 32, 1),
        fixed: number(body, 33, 1) != 0,
    };
    Call::Declare { request }
}

// The call of a record of a kind, from bytes that begin with its whole body.
fn call(kind: Kind, body: &[u8]) -> Call
    requires { body_length (byte_of kind) ≤ length body.now }
    ensures { result ≡ body_at (byte_of kind) body.now 0 }
{
    match kind {
        Kind::Boot => boot(body),
        Kind::PutMovable => Call::PutMovable {
            name: number(body, 0, 4),
        },
        Kind::PutFixed => Call::PutFixed {
            name: number(body, 0, 4),
        },
        Kind::Drop => Call::Drop {
            name: number(body, 0, 4),
        },
        Kind::Pin => Call::Pin {
            name: number(body, 0, 4),
        },
        Kind::Unpin => Call::Unpin {
            name: number(body, 0, 4),
        },
        Kind::Store => store(body),
        Kind::Read => Call::Read {
            name: number(body, 0, 4),
        },
        Kind::Grant => grant(body),
        Kind::Release => release(body),
        Kind::DeviceStore => device_store(body),
        Kind::DeviceRead => device_read(body),
        Kind::Declare => declare(body),
    }
}

// The record that begins at `at`: its call, and its length with the byte of kind. A boot has the empty text. Where no byte stands at `at`, its
// kind is cut off too.
pub fn decode(bytes: &[u8], at: usize) -> Result<(Call, usize), Undecoded>
    ensures { result ≡ decode_at bytes.now at }
{
    let first = *bytes.get(at).ok_or(Undecoded::Cut)?;
    let kind = Kind::try_from(first)?;
    let length = kind.body_length();
    let rest = &bytes[at + 1..];
    if rest.len() < length {
        return Err(Undecoded::Cut);
    }
    Ok((call(kind, rest), length + 1))
}
