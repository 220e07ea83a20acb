// The types of the protocol's state and of its answers. The rules over them are definitions in specs/.

#![tactic(auto)]

use minislot::Minislot;

// What every station knows of the queues (paper: the counters). Group g stands at g − 1 of the two arrays.
#[derive(Clone, Copy, PartialEq, Eq)]
pub struct Counters {
    // minislots of a slot (paper: m)
    pub minislots: u8,
    // groups that slots go round (paper: n)
    pub groups: u8,
    // the group whose slot is next
    pub next: u8,
    // places of the urgent transmission queue (paper: H)
    pub urgent: u16,
    // places of the long transmission queue, one for each slot (paper: N)
    pub long: u16,
    // places of each group's resolution queue (paper: RQ)
    pub resolution: [u16; 8],
    // whether each group's last slot was open (paper: Open)
    pub opened: [bool; 8],
    // who owns the data slot at each of 24 positions: a station's index, or 65,535 for nobody (paper: the calendar)
    pub calendar: [u16; 24],
    // the position of the coming slot
    pub position: u8,
}

// The lengths of the three queues that a slot of one group works on, while step 1 counts: wide enough for a sum that passes its limit.
#[derive(Clone, Copy)]
pub struct Places {
    pub urgent: u32,
    pub long: u32,
    pub resolution: u32,
}

// Step 1 of a slot, counted once: whether a Single of count 1 is immediate success, the lengths before the row and after it, and whether
// those after it are within their limits.
#[derive(Clone, Copy)]
pub struct StepOne {
    pub success: bool,
    pub before: Places,
    pub after: Places,
    pub fits: bool,
}

// The turn of a slot: whose stream its data slot carries, or which queue it serves.
#[derive(Clone, Copy)]
pub enum Turn {
    Owned { owner: u16 },
    Urgent,
    Long,
    Resolve,
    Open,
}

// Where a message stands (paper: the conditions of a box). A held one is kept for the automation: it neither asks nor sends until it is
// committed.
#[derive(Clone, Copy, Default)]
pub enum Condition {
    #[default]
    Free,
    Fresh { total: u8 },
    Asked { group: u8, minislot: u8, total: u8 },
    Resolving { group: u8, place: u16, total: u8 },
    Urgent { place: u16 },
    Long { first: u16, left: u8, total: u8 },
    Held { total: u8 },
}

// Where step 1 takes the message that asked in a minislot: nowhere (nobody asked there, or success was immediate), or to a new place of a
// queue.
#[derive(Clone, Copy)]
pub enum Landing {
    Gone,
    ToUrgent { place: u16 },
    ToLong { first: u16 },
    ToResolution { place: u16 },
}

// A minislot's landing: an array of enums is no covered field, so each stands in a struct.
#[derive(Clone, Copy)]
pub struct Landed {
    pub landing: Landing,
}

// The outcome of a slot: what all stations with the same counters have in common, worked out once from the counters and the row.
#[derive(Clone, Copy)]
pub struct Outcome {
    // the group whose slot it is
    pub group: u8,
    pub turn: Turn,
    // RQ of the group after step 1
    pub resolution: u32,
    // where each minislot lands a newcomer
    pub landed: [Landed; 8],
    // the counters after the slot
    pub counters: Counters,
    // slots that the row heard delivered
    pub delivered: u8,
}

// What a message does in a slot: its condition after it, the minislot of its request and the segment it sends (0 for none).
#[derive(Clone, Copy)]
pub struct Acted {
    pub condition: Condition,
    pub minislot: u8,
    pub segment: u8,
}

// One of the two message records of a station: where its message stands, if it holds one.
#[derive(Clone, Copy)]
pub struct MessageRecord {
    pub condition: Condition,
}

// A station's record (paper: box).
#[derive(Clone, Copy)]
pub struct Station {
    pub counters: Counters,
    pub index: u16,
    // the record of a message of one slot, 1 to 48 bytes
    pub short: MessageRecord,
    // the record of a longer one, 49 to 12,240 bytes
    pub long: MessageRecord,
}

// A message record of a table: its station's index, and where its message stands.
#[derive(Clone, Copy, Default)]
pub struct TableMessage {
    pub index: u16,
    pub condition: Condition,
}

// One group's minislots on the wire.
#[derive(Clone, Copy)]
pub struct WireRow {
    pub minislots: [Minislot; 8],
}

// The answer to starting: it went through, or the number of the refusal.
#[derive(Clone, Copy)]
pub enum StartAnswer {
    Ready,
    Refused(u8),
}

// The answer to listening: the turn, or the number of the refusal.
#[derive(Clone, Copy)]
pub enum ListenAnswer {
    Went(Turn),
    Refused(u8),
}

// Starting a listener: the answer, and the record (all zero if refused, which no later call takes).
#[derive(Clone, Copy)]
pub struct Started {
    pub answer: StartAnswer,
    pub counters: Counters,
}

// Listening: the answer, and the record after (as it was if refused).
#[derive(Clone, Copy)]
pub struct Listened {
    pub answer: ListenAnswer,
    pub counters: Counters,
}

// One of a station's two message records.
#[derive(Clone, Copy)]
pub enum Which {
    ShortOne,
    LongOne,
}

// A call that writes one message record of one station. An offer and a hold have a message's bytes, and its length picks the record; a
// commit and a withdrawal name the record.
#[derive(Clone, Copy)]
pub enum Writing {
    Offer { bytes: usize },
    Hold { bytes: usize },
    Commit { which: Which },
    Withdraw { which: Which },
}

// The answer to a writing: the message's slot total, or the number of the refusal.
#[derive(Clone, Copy)]
pub enum WriteAnswer {
    Total(u8),
    Refused(u8),
}

// The answer to a station's slot: the turn, the minislot of its request and the segment it sends (0 for none); or the number of the
// refusal.
#[derive(Clone, Copy)]
pub enum SlotAnswer {
    Went {
        turn: Turn,
        minislot: u8,
        segment: u8,
    },
    Refused(u8),
}

// Starting a station: the answer, and the record (all zero if refused).
#[derive(Clone, Copy)]
pub struct StationStarted {
    pub answer: StartAnswer,
    pub station: Station,
}

// Writing a message record of a station: the answer, and the record after (as it was if refused).
#[derive(Clone, Copy)]
pub struct StationWritten {
    pub answer: WriteAnswer,
    pub station: Station,
}

// A station's slot: the answer, the slot total that its request carries (0 for none), and the record after (as it was if refused).
#[derive(Clone, Copy)]
pub struct StationSlot {
    pub answer: SlotAnswer,
    pub request: u8,
    pub station: Station,
}

// The answer to setting a calendar: it went through, or the number of the refusal.
#[derive(Clone, Copy)]
pub enum CalendarAnswer {
    Set,
    Refused(u8),
}

// Setting a listener's calendar: the answer, and the record after (as it was if refused).
#[derive(Clone, Copy)]
pub struct CalendarSet {
    pub answer: CalendarAnswer,
    pub counters: Counters,
}

// Setting a station's calendar: the answer, and the record after (as it was if refused).
#[derive(Clone, Copy)]
pub struct StationSet {
    pub answer: CalendarAnswer,
    pub station: Station,
}

// What the stations of a channel send in a slot: the group's new row, the number of data senders, and a lone one's index and segment (0
// and 0 if there isn't just one).
#[derive(Clone, Copy)]
pub struct Sent {
    pub minislots: [Minislot; 8],
    pub senders: u8,
    pub index: u16,
    pub segment: u8,
}

// The answer to a call on a channel: the number of the refusal; the slot total of a message that was offered, held, committed or
// withdrawn; nothing more where a calendar was set; a slot's turn, its number of data senders, the index and segment of a lone sender (0
// and 0 if there isn't just one), and the slots delivered in the call.
#[derive(Clone, Copy)]
pub enum Answer {
    Refused(u8),
    Taken(u8),
    OnHold(u8),
    Committed(u8),
    Withdrawn(u8),
    Set,
    Went {
        turn: Turn,
        senders: u8,
        index: u16,
        segment: u8,
        delivered: u8,
    },
}
