// What refuses an event, under the header's names; the table's own are RequestUnknown, NotInThisState and FieldWrong.
#[derive(Clone, Copy, PartialEq, Eq)]
pub enum Refusal {
    SetNotAcceptable = 7,
    RecordDoesNotFit = 8,
    SetupLengthWrong = 9,
    RequestUnknown = 10,
    NotInThisState = 11,
    FieldWrong = 12,
    DoesNotExist = 13,
    NoSuchFeature = 14,
    EndpointUnfit = 16,
    TestModeEntered = 17,
    NoSuchPort = 18,
    WakeNotAllowed = 19,
}
