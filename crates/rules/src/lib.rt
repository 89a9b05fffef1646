// The values and limits of document 01 that code and definitions share. The rules themselves stand in specs/.
#![tactic(auto)]

ghost use Rattle.std.specs.Prelude.{◌≡◌};
ghost use Rattle.rules.specs.Refusals.{number_of};

// The ranges and limits of 01, Net bytes (the length's is of 02, wish 3, that of via resistance of 02, wish 5), as code compares with them; specs/Bytes.antt
// has the same numbers for the definitions.
pub const MAX_UNIT: u64 = 1_000;

pub const MAX_VIA_RES: u64 = 1_000;

pub const MAX_LAYERS: usize = 16;

pub const MAX_LENGTH: u64 = 4_000;

pub const MAX_COST: u64 = 1_000_000;

pub const MAX_GATE_RES: u64 = 100_000;

pub const MAX_INPUT_CAP: u64 = 100_000;

pub const MAX_INTRINSIC: u64 = 1_000_000_000;

pub const MAX_TIME: i64 = 1_000_000_000_000_000;

pub const MAX_NODES: usize = 255;

pub const MAX_STAGES: usize = 64;

pub const MAX_CHILDREN: u16 = 2;

// The limit of p and q (01, Planning: refusal 9); specs/Planning.antt has it for the definitions.
pub const MAX_SHARE: u64 = 1_000;

// The most rounds, one for each k from 28 down to 0 (02, wish 7: refusal 14); specs/Rounds.antt has it for the definitions.
pub const MAX_ROUNDS: u64 = 29;

// The shares of the chart, 1/1 to 1/10 (02, wish 1); specs/Chart.antt has their number for the definitions.
pub const CHART_SHARES: u64 = 10;

// How the program plans (01, Program): the share 1/4, the entries of its table, the bytes of its plan buffer; specs/Program.antt has them for the
// definitions.
pub const PROGRAM_P: u64 = 1;

pub const PROGRAM_Q: u64 = 4;

pub const PROGRAM_TABLE: usize = 8_192;

pub const PROGRAM_ROOM: usize = 64;

// The most bytes of a block (02, wish 2); specs/Block.antt has the number for the definitions.
pub const MAX_BLOCK: usize = 65_536;

// The refusal numbers that a report counts, 0 to 12 (02, wish 2); specs/Block.antt has their number for the definitions.
pub const NET_NUMBERS: usize = 13;

// The most bytes of a net that a desk takes (02, wish 8: refusal 15); specs/Desk.antt has the number for the definitions.
pub const MAX_DESK_NET: usize = 4_096;

// The kind of a node after the driver, with the numbers of its own (01, Net bytes, tags 3 to 5).
#[derive(Clone, Copy)]
pub enum Kind {
    Steiner,
    Buffer {
        input_cap: u64,
        gate_res: u64,
        intrinsic: u64,
    },
    Sink {
        input_cap: u64,
        required: i64,
    },
}

// Why a call is refused, with the number that it answers (01, Reading, Judging and Planning; 02, wishes 2, 7 and 8; docs/FORMAT.md, section 3). Its
// number in the definitions: specs/Refusals.antt.
#[derive(Clone, Copy, Debug, PartialEq, Eq)]
pub enum Refusal {
    // The bytes end where a field, or the rest of one, is due.
    Ended = 1,
    // The field has a tag, or with this tag a length, that is not allowed there.
    WrongField = 2,
    // A number is outside its range.
    OutOfRange = 3,
    // There is no room for this node: the 256th after the driver, or the 64th buffer.
    TooMany = 4,
    // The node's parent may have no further child.
    WrongParent = 5,
    // A node that is no sink has no child.
    Childless = 6,
    // The plan has not one layer number for each stage; on a desk, there is no such stage.
    WrongStages = 7,
    // There is no such layer.
    WrongLayer = 8,
    // The share is outside its range.
    WrongShare = 9,
    // The plan buffer is shorter than the number of stages.
    NoRoom = 10,
    // No plan meets timing.
    TooLate = 11,
    // The table has too few columns.
    TooShort = 12,
    // The bytes are no block.
    NoBlock = 13,
    // The number of rounds is outside its range.
    WrongRounds = 14,
    // A desk takes no net of so many bytes.
    TooLong = 15,
    // The desk was never opened.
    NeverOpened = 16,
    // The stage is locked.
    Locked = 17,
}

impl From<Refusal> for u8 {
    ghost from_gives = { λ why n. n ≡ number_of why };

    fn from(why: Refusal) -> u8 {
        why as u8
    }
}

// What checking answers (01, Reading): a refusal number, 0 if accepted, and three counts.
#[repr(C)]
#[derive(Clone, Copy)]
pub struct Checked {
    // Kept: flat and with a number: the C interface and the clauses of the open calls (`check`, `judge`, `plan`, ..) give a refusal number and zeros.
    pub refusal: u8,
    pub nodes: u64,
    pub stages: u64,
    pub layers: u64,
}

// What judging answers (01, Judging): a refusal number, 0 if accepted, and the plan's cost and slack.
#[repr(C)]
#[derive(Clone, Copy)]
pub struct Judged {
    // Kept: flat and with a number: the C interface and the clauses of the open calls (`check`, `judge`, `plan`, ..) give a refusal number and zeros.
    pub refusal: u8,
    pub cost: u64,
    pub slack: i64,
}

// What planning answers (01, Planning): a refusal number, 0 if accepted, the plan's cost and slack, k of the grain 2^k, and the floor
// 2^k × V(k) (02, wish 6).
#[derive(Clone, Copy)]
pub struct Planned {
    // Kept: flat and with a number: the C interface and the clauses of the open calls (`check`, `judge`, `plan`, ..) give a refusal number and zeros.
    pub refusal: u8,
    pub cost: u64,
    pub slack: i64,
    pub k: u64,
    pub floor: u64,
}

// What planning by some rounds answers (02, wish 7): a refusal number, 0 if accepted, the cost and slack of the cheapest plan seen, the floor, and the rounds
// run.
#[derive(Clone, Copy)]
pub struct RoundsPlanned {
    // Kept: flat and with a number: the C interface and the clauses of the open calls (`check`, `judge`, `plan`, ..) give a refusal number and zeros.
    pub refusal: u8,
    pub cost: u64,
    pub slack: i64,
    pub floor: u64,
    pub rounds: u64,
}

// What a report over a block answers (02, wish 2): 13 or 0; how many nets there are, how many were planned, and how many were refused with each number;
// the cost of the planned nets, and their total edge length on each layer.
#[repr(C)]
#[derive(Clone, Copy)]
pub struct Report {
    // Kept: flat and with a number: the C interface and the clauses of the open calls (`check`, `judge`, `plan`, ..) give a refusal number and zeros.
    pub refusal: u8,
    pub nets: u64,
    pub planned: u64,
    pub refused: [u64; NET_NUMBERS],
    pub cost: u64,
    pub lengths: [u64; MAX_LAYERS],
}
