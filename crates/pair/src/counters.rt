// The transport numbers of a side: which number its next packet gets, and which was handed out there last.
ghost use Rattle.std.specs.Prelude.{◌≡◌, None};
ghost use Rattle.pair.specs.Counts.{one_more, handed_out, is_newer};

use packets::packet::TransportNumber;

// As far ahead of the last number as a new one may be.
const FARTHEST_AHEAD: u16 = 32767;

#[derive(Clone, Copy)]
pub(crate) struct Numbers {
    next: TransportNumber,
    pub(crate) last: Option<TransportNumber>,
}

impl Numbers {
    // Those of a side where no packet was put or handed out yet.
    pub(crate) fn new() -> Numbers
        ensures next { result.next.0 ≡ 0 }
        ensures last { result.last ≡ None }
    {
        Numbers {
            next: TransportNumber(0),
            last: None,
        }
    }

    // The number for one more packet.
    pub(crate) fn advance(&mut self) -> TransportNumber
        ensures value { result ≡ self.old.next }
        ensures after { self.new ≡ one_more self.old }
    {
        let number = self.next;
        self.next = TransportNumber(number.0.wrapping_add(1));
        number
    }

    // Notes the number of a packet that is handed out.
    pub(crate) fn note(&mut self, number: TransportNumber)
        ensures { self.new ≡ handed_out self.old number }
    {
        self.last = Some(number);
    }
}

// Whether a packet is new after the last one that was handed out.
pub(crate) fn is_newer(last: Option<TransportNumber>, number: TransportNumber) -> bool
    ensures { result ≡ is_newer last number.0 }
{
    last.is_none_or(|last| (1..=FARTHEST_AHEAD).contains(&number.0.wrapping_sub(last.0)))
}
