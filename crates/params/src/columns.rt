// The columns of a sheet: the names line, and the place and the range of each column, named once.
use terms::lengths::LONGEST_MESSAGE;
use terms::sides::Sides;
use texts::columns::Column;
use texts::numbers::Range;

pub const NAMES: &str =
    "role own1 own2 far1 far2 version period window mmin mmax ask wait setup data ec";

// how many values stand in a line
pub const COLUMNS: usize = 15;

// the role of a line, by the only number that may stand there
pub const ROLES: Sides<Column> = Sides {
    initiator: Column {
        place: 1,
        range: Range { low: 1, high: 1 },
    },
    responder: Column {
        place: 1,
        range: Range { low: 0, high: 0 },
    },
};

// the identifiers, by their places
pub const OWN1: u8 = 2;

pub const OWN2: u8 = 3;

pub const FAR1: u8 = 4;

pub const FAR2: u8 = 5;

pub const VERSION: Column = Column {
    place: 6,
    range: Range { low: 0, high: 255 },
};

pub const PERIOD: Column = Column {
    place: 7,
    range: Range {
        low: 1,
        high: 60_000,
    },
};

pub const WINDOW: Column = Column {
    place: 8,
    range: Range {
        low: 1,
        high: 1_000,
    },
};

// how far below zero
pub const MMIN: Column = Column {
    place: 9,
    range: Range {
        low: 1,
        high: 1_000,
    },
};

pub const MMAX: Column = Column {
    place: 10,
    range: Range {
        low: 0,
        high: 1_000,
    },
};

pub const ASK: Column = Column {
    place: 11,
    range: Range {
        low: 1,
        high: 10_000,
    },
};

pub const WAIT: Column = Column {
    place: 12,
    range: Range {
        low: 1,
        high: 1_000,
    },
};

pub const SETUP: Column = Column {
    place: 13,
    range: Range {
        low: 1,
        high: 10_000,
    },
};

pub const DATA: Column = Column {
    place: 14,
    range: Range {
        low: 3,
        high: LONGEST_MESSAGE as u32,
    },
};

pub const EC: Column = Column {
    place: 15,
    range: Range {
        low: 0,
        high: u32::MAX,
    },
};

// how many bits differ between a half of the own identifier and that half of the far one
pub const DIFFERING: Range = Range { low: 6, high: 26 };
