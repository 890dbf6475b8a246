// The plain values of the energy account book: what the definitions in specs/ and the code of the crates above share.
#![tactic(auto)]

pub mod balances;
pub mod hours;
pub mod kinds;
pub mod limits;
pub mod parties;
pub mod phases;
pub mod sides;
pub mod sites;
pub mod statuses;
pub mod verdicts;

use units::{Cents, CentsPerMwh, Kwh, MilliCents};

// The counts of a set-up, in the order of its bytes.
#[derive(Clone, Copy)]
pub struct Counts {
    pub hours: u8,
    pub operators: u8,
    pub accounts: u8,
    pub points: u8,
    pub zones: u8,
}

// An operator as the set-up has it. Maintenance is per thousand of the guarantee.
#[derive(Clone, Copy)]
pub struct Operator {
    pub guarantee: Cents,
    pub maintenance: u16,
}

// The margins of an account in an hour.
#[derive(Clone, Copy)]
pub struct Margins {
    pub lower: Kwh,
    pub upper: Kwh,
}

// A point. Kind: 1 injection, 2 withdrawal, 3 mixed. Injection and withdrawal are its greatest amounts per hour.
#[derive(Clone, Copy)]
pub struct Point {
    pub account: u8,
    pub kind: u8,
    pub zone: u8,
    pub injection: Kwh,
    pub withdrawal: Kwh,
}

// A row, in the order in which it reads out. Side: 1 the proposer sells, 2 it buys. Status: 1 pending, 2 confirmed, 3 withdrawn.
#[derive(Clone, Copy, PartialEq, Eq)]
pub struct Row {
    pub proposer: u8,
    pub counterparty: u8,
    pub code: u64,
    pub side: u8,
    pub first: u8,
    pub last: u8,
    pub quantity: Kwh,
    pub status: u8,
}

// A net position: what an account bought in an hour less what it sold.
#[derive(Clone, Copy)]
pub struct Net {
    pub bought: Kwh,
    pub sold: Kwh,
}

// What an account holds in an hour: its net, and its own pending sales and purchases.
#[derive(Clone, Copy)]
pub struct AccountHour {
    pub net: Net,
    pub sales: Kwh,
    pub purchases: Kwh,
}

// A net position as it is read out, with its sign: long is plus, short is minus.
#[derive(Clone, Copy)]
pub enum Position {
    Long(Kwh),
    Short(Kwh),
}

// A schedule of a point in an hour. Side: 1 injects, 2 withdraws.
#[derive(Clone, Copy)]
pub struct Schedule {
    pub point: u8,
    pub side: u8,
    pub hour: u8,
    pub quantity: Kwh,
    pub price: CentsPerMwh,
}

// A schedule with its place, which is its order of receipt, from 1.
#[derive(Clone, Copy)]
pub struct Placed {
    pub place: u16,
    pub schedule: Schedule,
}

// Money with its sign, as an operator's balance: what is gained less what is lost.
#[derive(Clone, Copy)]
pub struct Balance {
    pub gained: MilliCents,
    pub lost: MilliCents,
}

// An account hour valued, figure by figure: its physical balance, purchase, sale, CCT and hourly amount.
#[derive(Clone, Copy)]
pub struct ValuedHour {
    pub physical: Net,
    pub purchase: MilliCents,
    pub sale: MilliCents,
    pub cct: Balance,
    pub amount: Balance,
}

// A request: its kind, and the field of each bit. A field that the kind has not is 0.
#[derive(Clone, Copy)]
pub struct Request {
    pub kind: u8,
    pub account: u8,
    pub other: u8,
    pub code: u64,
    pub side: u8,
    pub first: u8,
    pub last: u8,
    pub quantity: Kwh,
    pub number: u16,
    pub operator: u8,
    pub guarantee: Cents,
    pub point: u8,
    pub price: CentsPerMwh,
}

// Why a call is refused, with the details that go with it. In the order of their numbers, 1 to 23.
#[derive(Clone, Copy)]
pub enum Refusal {
    NotABook,
    Unreadable,
    UnknownKind,
    WrongMap { missing: u8, unwanted: u8 },
    WrongLength,
    OutOfRange { bit: u8 },
    SameAccount,
    SetupShape,
    SetupValue { offset: u16 },
    BufferShort,
    WrongPhase,
    BatchOpen,
    NoBatch,
    AlreadyPending,
    RowsFull,
    NoSuchRow,
    NotMirrored,
    MarginBroken { hour: u8 },
    Uncovered,
    SchedulesFull,
    StripCount,
    StripTwins,
    NoStandingAsk,
}

// The answer of a call: accepted with a number, or refused with what goes with the refusal.
#[derive(Clone, Copy)]
pub struct Outcome {
    pub verdict: Result<u16, Refusal>,
}

// A verdict's number and its two details, as the paper counts them. Details not named are 0.
#[derive(Clone, Copy)]
pub struct Numbers {
    pub number: u8,
    pub first: u16,
    pub second: u16,
}
