// Telegrams: what a data frame carries.
ghost use Rattle.std.specs.Prelude.{◌≡◌, ◌+◌, ◌^◌, ◌<◌, ◌≤◌, ◌++◌, length, Ok};
ghost use Rattle.terms.specs.Buffers.{put_after};
ghost use Rattle.terms.specs.declared.refusal.Refusal.TheVariants as refusal;
ghost use Rattle.codec.specs.Telegrams.{content_value, telegram_value, telegram_values, content_type, content_bytes, header, telegram_bytes, read_content, read_telegram, body_fits, telegram_answer, telegram_after};
ghost use Rattle.codec.specs.TelegramLaws.{Proper, TelegramJudged, TelegramBack};

use terms::counters::{ExecutionCycle, SequenceNumber};
use terms::laying::lay;
use terms::layout;
use terms::layout::Layout;
use terms::lengths::LONGEST_MESSAGE;
use terms::refusal::Refusal;

// What a telegram says. A message is borrowed from the string that it was read from.
#[derive(Clone, Copy)]
pub enum Content<'a> {
    // opens the exchange: the sender's version and its period in milliseconds
    EcStart { version: u8, period: u16 },
    Am(&'a [u8]),
    // asks for an answer
    AmReq(&'a [u8]),
    // is that answer
    AmAck(&'a [u8]),
    // none of these, or an ECStart of another length
    Other { type_byte: u8, body: &'a [u8] },
}

#[derive(Clone, Copy)]
pub struct Telegram<'a> {
    pub sn: SequenceNumber,
    pub ec: ExecutionCycle,
    pub content: Content<'a>,
}

// An ECStart of another length is kept as it is, by its own byte.
fn content_from(type_byte: u8, body: &[u8]) -> Content<'_>
    ensures { content_value result ≡ read_content type_byte body.now }
{
    match (type_byte, body) {
        (0x81, [version, a, b]) => Content::EcStart {
            version: *version,
            period: u16::from_be_bytes([*a, *b]),
        },
        (0x86, _) => Content::Am(body),
        (0x87, _) => Content::AmReq(body),
        (0x88, _) => Content::AmAck(body),
        _ => Content::Other { type_byte, body },
    }
}

fn parse(t: &[u8]) -> Result<Telegram<'_>, Refusal>
    ensures { telegram_values result ≡ read_telegram t.now }
{
    if t.len() > 9 + LONGEST_MESSAGE {
        return Err(Refusal::FrameLength);
    }
    let [type_byte, a, b, c, d, e, f, g, h, body @ ..] = t else {
        return Err(Refusal::FrameLength);
    };
    Ok(Telegram {
        sn: SequenceNumber(u32::from_be_bytes([*a, *b, *c, *d])),
        ec: ExecutionCycle(u32::from_be_bytes([*e, *f, *g, *h])),
        content: content_from(*type_byte, body),
    })
}

impl<'a> Content<'a> {
    fn type_byte(self) -> u8
        ensures { result ≡ content_type (content_value self.entry) }
    {
        match self {
            Content::EcStart { .. } => 0x81,
            Content::Am(_) => 0x86,
            Content::AmReq(_) => 0x87,
            Content::AmAck(_) => 0x88,
            Content::Other { type_byte, .. } => type_byte,
        }
    }

    // How many bytes stand behind SN and EC.
    fn size(self) -> usize
        ensures value { result ≡ length (content_bytes (content_value self.entry)) }
        ensures bound { result < 2 ^ 63 }
    {
        match self {
            Content::EcStart { .. } => 3,
            Content::Am(body)
            | Content::AmReq(body)
            | Content::AmAck(body)
            | Content::Other { body, .. } => body.len(),
        }
    }

    // Lays `front`, `middle` and the content one behind the other, if there is room for them.
    fn fill(self, front: &[u8], middle: &[u8], out: &mut [u8])
        ensures { out.new ≡ put_after (front.now ++ (middle.now ++ content_bytes (content_value self.entry))) out.old }
    {
        match self {
            Content::EcStart { version, period } => {
                let p = period.to_be_bytes();
                lay(out, front, middle, &[version, p[0], p[1]])
            }
            Content::Am(body)
            | Content::AmReq(body)
            | Content::AmAck(body)
            | Content::Other { body, .. } => lay(out, front, middle, body),
        }
    }
}

impl<'a> Telegram<'a> {
    // Reads a string as the one telegram it is; one of a length that no data frame leaves for it is refused.
    pub fn read(t: &'a [u8]) -> Result<Telegram<'a>, Refusal>
        ensures answer { telegram_values result ≡ read_telegram t.now }
        ensures judged { TelegramJudged t.now (telegram_values result) }
    {
        parse(t)
    }

    // Type, SN and EC.
    fn head(self) -> [u8; 9]
        ensures { result ≡ header (telegram_value self.entry) }
    {
        let [a, b, c, d] = self.sn.0.to_be_bytes();
        let [e, f, g, h] = self.ec.0.to_be_bytes();
        [self.content.type_byte(), a, b, c, d, e, f, g, h]
    }

    // Lays `front` and then the telegram at the start of `out`, if there is room for them.
    #[tactic(auto, unfolding(crate::specs::Telegrams::telegram_bytes))]
    pub(crate) fn lay_behind(self, front: &[u8], out: &mut [u8])
        ensures after { out.new ≡ put_after (front.now ++ telegram_bytes (telegram_value self.entry)) out.old }
        ensures fits { ((telegram_value self.entry).sn < 2 ^ 32) × ((telegram_value self.entry).ec < 2 ^ 32) }
    {
        self.content.fill(front, &self.head(), out)
    }

    // Writes the telegram to the start of `out`, whose rest stays, and says how many bytes it has; a refusal leaves `out` as it was.
    pub fn write(self, out: &mut [u8]) -> Result<usize, Refusal>
        ensures answer { result ≡ telegram_answer (telegram_value self.entry) (telegram_bytes (telegram_value self.entry)) out.old }
        ensures after { out.new ≡ telegram_after (telegram_value self.entry) (telegram_bytes (telegram_value self.entry)) out.old }
        ensures back { TelegramBack (telegram_value self.entry) result out.new }
    {
        layout::write(&self, out)
    }
}

impl Layout for Telegram<'_> {
    ghost bytes = { λ telegram. telegram_bytes (telegram_value telegram) };

    ghost fits = { λ telegram. body_fits (telegram_value telegram) };

    ghost unfit = { refusal.MessageTooLong };

    ghost read_back = { λ telegram s. Proper (telegram_value telegram).content → read_telegram s ≡ Ok (telegram_value telegram) };

    #[tactic(auto, using(crate::proofs::TelegramTrips::length_telegram))]
    fn size(&self) -> usize
        ensures value { result ≡ length (telegram_bytes (telegram_value self.now)) }
        ensures bound { result < 2 ^ 63 + 9 }
    {
        9 + self.content.size()
    }

    // Whether what stands behind SN and EC is no longer than a message may be.
    fn check(&self) -> Result<(), Refusal> {
        if self.content.size() > LONGEST_MESSAGE {
            return Err(Refusal::MessageTooLong);
        }
        Ok(())
    }

    #[tactic(auto, using(crate::proofs::TelegramTrips::read_back))]
    fn lay(&self, out: &mut [u8]) {
        self.lay_behind(&[], out)
    }
}
