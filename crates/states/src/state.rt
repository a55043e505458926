// The states of an end, each with what it needs.
ghost use Rattle.std.specs.Prelude.{◌≡◌, Some};
ghost use Rattle.states.specs.States.{state_word, status_of};

use crate::reason::Release;
use safety::word::SafetyWord;
use std::fmt;
use terms::counters::{ExecutionCycle, SequenceNumber};

// The word by which an end reads data frames, and the one with which it seals its own.
#[derive(Clone, Copy)]
pub struct Words {
    pub read: SafetyWord,
    pub write: SafetyWord,
}

// `sent` is the number of the last data frame put, `last` that of the last one accepted, `synced` the EC that the expectation was last set to.
#[derive(Clone, Copy)]
pub enum State {
    // the initiator has put AU1
    WaitAu2 {
        rb: u64,
        rc: u64,
    },
    // the initiator has put AU3
    WaitAr {
        ra: u64,
        rb: u64,
        rc: u64,
    },
    // the responder awaits AU1
    Listen {
        ra: u64,
    },
    // the responder has put AU2
    WaitAu3 {
        ra: u64,
        rb: u64,
    },
    // ECStart is awaited; the initiator has put its own
    WaitEc {
        words: Words,
    },
    // the responder has put its ECStart and awaits a first telegram
    WaitFirst {
        words: Words,
        last: SequenceNumber,
        synced: ExecutionCycle,
    },
    // data is exchanged: the lamp burns
    Up {
        words: Words,
        sent: SequenceNumber,
        last: SequenceNumber,
        synced: ExecutionCycle,
    },
    // released, for good
    Out(Release),
}

// A state by its name, and once out with the release.
#[derive(Clone, Copy)]
pub enum Status {
    WaitAu2,
    WaitAr,
    Listen,
    WaitAu3,
    WaitEc,
    WaitFirst,
    Up,
    Out(Release),
}

impl State {
    pub fn status(self) -> Status
        ensures { result ≡ status_of self }
    {
        match self {
            State::WaitAu2 { .. } => Status::WaitAu2,
            State::WaitAr { .. } => Status::WaitAr,
            State::Listen { .. } => Status::Listen,
            State::WaitAu3 { .. } => Status::WaitAu3,
            State::WaitEc { .. } => Status::WaitEc,
            State::WaitFirst { .. } => Status::WaitFirst,
            State::Up { .. } => Status::Up,
            State::Out(release) => Status::Out(release),
        }
    }
}

// Shown by the name of the state alone.
impl fmt::Display for Status {
    ghost output = { λ status. Some (state_word status) };

    fn fmt<W: fmt::Write>(&self, f: &mut fmt::Formatter<W>) -> fmt::Result {
        f.write_str(match self {
            Status::WaitAu2 => "waitau2",
            Status::WaitAr => "waitar",
            Status::Listen => "listen",
            Status::WaitAu3 => "waitau3",
            Status::WaitEc => "waitec",
            Status::WaitFirst => "waitfirst",
            Status::Up => "up",
            Status::Out(_) => "out",
        })
    }
}
