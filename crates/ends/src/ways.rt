// Which rule applies to a tick, or to a string that was fetched.
use codec::frame_type::ReasonCodes;
use states::reason::Reason;
use terms::counters::{ExecutionCycle, SequenceNumber};

#[derive(Clone, Copy)]
pub enum TickWay {
    // EC has no next value: nothing rises, the end is released
    UsedUp,
    // the initiator hears nothing: released, by the empty string
    Abandons,
    // EC and count rise, and the end is released
    Releases(Reason),
    // EC and count rise, nothing is put
    Silent,
    // EC and count rise, and AM goes out, or AM+REQ
    Sends { asks: bool },
}

// The telegrams of the data exchange.
#[derive(Clone, Copy)]
pub enum Exchange {
    Am,
    Req,
    Ack,
}

#[derive(Clone, Copy)]
pub enum FetchWay {
    // nothing changes
    Drops,
    // the far end has released
    LeftByFar(ReasonCodes),
    // this end releases
    Releases(Reason),
    // AU1 came: puts AU2
    AnswersAu1 {
        rb: u64,
    },
    // AU2 came: puts AU3
    AnswersAu2 {
        ra: u64,
    },
    // AU3 came: puts AR
    AnswersAu3 {
        rc: u64,
    },
    // AR came: puts ECStart
    AnswersAr,
    // ECStart came: the initiator is up, the responder puts its own
    Starts {
        sn: SequenceNumber,
        ec: ExecutionCycle,
    },
    // a telegram of the data exchange is accepted
    Takes {
        kind: Exchange,
        sn: SequenceNumber,
        ec: ExecutionCycle,
    },
}
