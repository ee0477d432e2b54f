// The eight setup bytes, and the table of the fifteen standard requests.
#![tactic(auto)]

ghost use Rattle.std.specs.Prelude.{◌≡◌};
ghost use Rattle.requests.specs.Table.{setup_of, row_of, in_state, largest_index, fields_fit, refusal};
ghost use Rattle.requests.specs.Found.{found_of};
ghost use Rattle.requests.specs.Refusal.{number_if_refused};

pub mod refusals;

pub use refusals::Refusal;

// The setup bytes as numbers.
#[derive(Clone, Copy)]
pub struct Setup {
    pub bmRequestType: u8,
    pub bRequest: u8,
    pub wValue: u16,
    pub wIndex: u16,
    pub wLength: u16,
}

// What a row of the table asks: the type and the code; wValue at most `value`; wIndex at most `index`, or `string` where the type asked is a string;
// wLength from `shortest` to `longest`; the state from `lowest` to `highest`.
#[derive(Clone, Copy)]
pub struct Row {
    pub bmRequestType: u8,
    pub bRequest: u8,
    pub value: u16,
    pub index: u16,
    pub string: u16,
    pub shortest: u16,
    pub longest: u16,
    pub lowest: u8,
    pub highest: u8,
}

// The types and codes of the standard requests, under USB 2.0's names.
// Kept: bytes and no enums, since the host may send any type and code; the table and the definitions compare them as numbers.
pub const FROM_DEVICE: u8 = 0x80;

pub const FROM_INTERFACE: u8 = 0x81;

const FROM_ENDPOINT: u8 = 0x82;

pub const TO_DEVICE: u8 = 0x00;

const TO_INTERFACE: u8 = 0x01;

const TO_ENDPOINT: u8 = 0x02;

pub const GET_STATUS: u8 = 0x00;

pub const CLEAR_FEATURE: u8 = 0x01;

pub const SET_FEATURE: u8 = 0x03;

pub const SET_ADDRESS: u8 = 0x05;

pub const GET_DESCRIPTOR: u8 = 0x06;

pub const GET_CONFIGURATION: u8 = 0x08;

pub const SET_CONFIGURATION: u8 = 0x09;

pub const GET_INTERFACE: u8 = 0x0a;

const SET_INTERFACE: u8 = 0x0b;

// The recipients in bits 4-0 of a type; the third is an endpoint.
// Kept: bits of a byte that the host sends, where any number may stand; they are compared once.
pub const DEVICE: u8 = 0;

pub const INTERFACE: u8 = 1;

// The type of a string descriptor, as wValue's high byte asks for it.
const STRING: u16 = 3;

// A device's states, as byte 0 of its record has them.
// Kept: bytes of C's record, between a row's lowest and highest; `records` names them too, but neither crate rests on the other.
const DEFAULT: u8 = 0;

const ADDRESS: u8 = 1;

const CONFIGURED: u8 = 2;

// Every number of two bytes is at most this.
const FREE: u16 = 65535;

const ROW_COUNT: usize = 15;

const ROWS: [Row; ROW_COUNT] = [
    Row {
        bmRequestType: FROM_DEVICE,
        bRequest: GET_STATUS,
        value: 0,
        index: 0,
        string: 0,
        shortest: 2,
        longest: 2,
        lowest: ADDRESS,
        highest: CONFIGURED,
    },
    Row {
        bmRequestType: FROM_INTERFACE,
        bRequest: GET_STATUS,
        value: 0,
        index: FREE,
        string: FREE,
        shortest: 2,
        longest: 2,
        lowest: ADDRESS,
        highest: CONFIGURED,
    },
    Row {
        bmRequestType: FROM_ENDPOINT,
        bRequest: GET_STATUS,
        value: 0,
        index: FREE,
        string: FREE,
        shortest: 2,
        longest: 2,
        lowest: ADDRESS,
        highest: CONFIGURED,
    },
    Row {
        bmRequestType: TO_DEVICE,
        bRequest: CLEAR_FEATURE,
        value: FREE,
        index: 0,
        string: 0,
        shortest: 0,
        longest: 0,
        lowest: ADDRESS,
        highest: CONFIGURED,
    },
    Row {
        bmRequestType: TO_DEVICE,
        bRequest: SET_FEATURE,
        value: FREE,
        index: 0,
        string: 0,
        shortest: 0,
        longest: 0,
        lowest: ADDRESS,
        highest: CONFIGURED,
    },
    Row {
        bmRequestType: TO_INTERFACE,
        bRequest: CLEAR_FEATURE,
        value: FREE,
        index: FREE,
        string: FREE,
        shortest: 0,
        longest: 0,
        lowest: ADDRESS,
        highest: CONFIGURED,
    },
    Row {
        bmRequestType: TO_ENDPOINT,
        bRequest: CLEAR_FEATURE,
        value: FREE,
        index: FREE,
        string: FREE,
        shortest: 0,
        longest: 0,
        lowest: ADDRESS,
        highest: CONFIGURED,
    },
    Row {
        bmRequestType: TO_INTERFACE,
        bRequest: SET_FEATURE,
        value: FREE,
        index: FREE,
        string: FREE,
        shortest: 0,
        longest: 0,
        lowest: ADDRESS,
        highest: CONFIGURED,
    },
    Row {
        bmRequestType: TO_ENDPOINT,
        bRequest: SET_FEATURE,
        value: FREE,
        index: FREE,
        string: FREE,
        shortest: 0,
        longest: 0,
        lowest: ADDRESS,
        highest: CONFIGURED,
    },
    Row {
        bmRequestType: TO_DEVICE,
        bRequest: SET_ADDRESS,
        value: 127,
        index: 0,
        string: 0,
        shortest: 0,
        longest: 0,
        lowest: DEFAULT,
        highest: ADDRESS,
    },
    Row {
        bmRequestType: FROM_DEVICE,
        bRequest: GET_DESCRIPTOR,
        value: FREE,
        index: 0,
        string: FREE,
        shortest: 0,
        longest: FREE,
        lowest: DEFAULT,
        highest: CONFIGURED,
    },
    Row {
        bmRequestType: FROM_DEVICE,
        bRequest: GET_CONFIGURATION,
        value: 0,
        index: 0,
        string: 0,
        shortest: 1,
        longest: 1,
        lowest: ADDRESS,
        highest: CONFIGURED,
    },
    Row {
        bmRequestType: TO_DEVICE,
        bRequest: SET_CONFIGURATION,
        value: 255,
        index: 0,
        string: 0,
        shortest: 0,
        longest: 0,
        lowest: ADDRESS,
        highest: CONFIGURED,
    },
    Row {
        bmRequestType: FROM_INTERFACE,
        bRequest: GET_INTERFACE,
        value: 0,
        index: FREE,
        string: FREE,
        shortest: 1,
        longest: 1,
        lowest: CONFIGURED,
        highest: CONFIGURED,
    },
    Row {
        bmRequestType: TO_INTERFACE,
        bRequest: SET_INTERFACE,
        value: FREE,
        index: FREE,
        string: FREE,
        shortest: 0,
        longest: 0,
        lowest: CONFIGURED,
        highest: CONFIGURED,
    },
];

// The setup that the eight bytes say, with 0 for what is missing.
pub fn setup_of(bytes: &[u8]) -> Setup
    ensures { result ≡ setup_of bytes.now }
{
    Setup {
        bmRequestType: octets::peek(bytes, 0),
        bRequest: octets::peek(bytes, 1),
        wValue: octets::word(bytes, 2),
        wIndex: octets::word(bytes, 4),
        wLength: octets::word(bytes, 6),
    }
}

// The row with the setup's type and code.
fn find_row(setup: Setup) -> Option<Row>
    ensures { result ≡ found_of (row_of setup) }
{
    let rows = ROWS;
    // Kept: by index, since as `for row in &rows` the table stands on the stack, 168 bytes (x86-64).
    for i in 0..ROW_COUNT {
        let row = rows[i];
        if (row.bmRequestType == setup.bmRequestType) & (row.bRequest == setup.bRequest) {
            return Some(row);
        }
    }
    None
}

// Whether the row allows the state.
fn in_state(row: Row, state: u8) -> bool
    ensures { result ≡ in_state row state }
{
    (row.lowest <= state) & (state <= row.highest)
}

// The largest wIndex at this wValue.
fn largest_index(row: Row, value: u16) -> u16
    ensures { result ≡ largest_index row value }
{
    if value / 256 == STRING {
        row.string
    } else {
        row.index
    }
}

// Whether the setup's fields are those that the row asks for.
fn fields_fit(row: Row, setup: Setup) -> bool
    ensures { result ≡ fields_fit row setup }
{
    let largest = largest_index(row, setup.wValue);
    (setup.wValue <= row.value)
        & (setup.wIndex <= largest)
        & (row.shortest <= setup.wLength)
        & (setup.wLength <= row.longest)
}

// What refuses the setup at the table: that no row has its type and code, that its row does not allow the state, a field, in that order.
pub fn refusal(state: u8, setup: Setup) -> Option<Refusal>
    ensures { number_if_refused result ≡ refusal state setup }
{
    let Some(row) = find_row(setup) else {
        return Some(Refusal::RequestUnknown);
    };
    if !in_state(row, state) {
        return Some(Refusal::NotInThisState);
    }
    if !fields_fit(row, setup) {
        return Some(Refusal::FieldWrong);
    }
    None
}
