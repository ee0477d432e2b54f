// What an event has to know of a board, by value: requests are functions of these facts, the record and the setup.
use descriptors::survey::Survey;

// Where the descriptor that is asked for lies: a body of the set, the serial block, or nowhere.
// Kept: Option<Located> would say nowhere by a second tag; the three are matched together, as one enum.
#[derive(Clone, Copy)]
pub enum Located {
    Body { offset: u16, length: u16 },
    Serial { length: u16 },
    Nowhere,
}

// Kept: `configured` beside the survey, since a record whose value no configuration has is judged by the empty survey (records::fits).
// paired: two sets are lent; configured: the set has a configuration with the record's value; waking: some configuration supports remote wakeup; survey: what the selected configuration has; interface: it has the interface that is asked for;
// configuration: the set has the value that SET_CONFIGURATION asks for; located: what GET_DESCRIPTOR asks for.
#[derive(Clone, Copy)]
pub struct Facts {
    pub paired: bool,
    pub configured: bool,
    pub waking: bool,
    pub interface: bool,
    pub survey: Survey,
    pub configuration: bool,
    pub located: Located,
}
