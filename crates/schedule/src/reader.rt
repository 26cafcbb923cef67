// The reader of a schedule, over bytes that it borrows.
ghost use Rattle.std.specs.Prelude.{◌≡◌, ◌+◌, ◌-◌, false, length, Some, None, IfOk, IfSome, MatchOption, MatchResult, nat_lt};
ghost use Rattle.basis.specs.declared.refusal.Refusal.TheVariants.{BadRecord};
ghost use Rattle.basis.specs.Refusals.{refusal};
ghost use Rattle.records.specs.Records.{from_two, fields};
ghost use Rattle.schedule.specs.Reading.{open_refusal, cut_of, content_at, LiesAt, Opened, Asked};

use basis::refusal::Refusal;
use records::record::Record;

/// One record as it is handed out: its bytes from the call byte on, a part of the schedule, the offset of that byte, and what the record says.
#[derive(Clone, Copy, PartialEq, Eq, Debug)]
pub struct Part<'a> {
    pub bytes: &'a [u8],
    pub offset: usize,
    pub content: Record,
}

/// A schedule that is being read: what is left of it, how many bytes it has in all, and whether its first record is still to come.
#[derive(Clone, Copy, PartialEq, Eq, Debug)]
pub struct Reader<'a> {
    rest: &'a [u8],
    total: usize,
    first: bool,
}

// More bytes than a schedule may have.
fn too_long(total: usize) -> bool
    ensures { result ≡ nat_lt 60000 total }
{
    total > 60000
}

// The length that stands in front of a record, in two bytes.
fn length_of(high: u8, low: u8) -> usize
    ensures { result ≡ from_two high low }
{
    usize::from(u16::from_be_bytes([high, low]))
}

// The bytes of the record whose length stands in front, and what is left after them; None where the record is cut short. By ranges and not by
// `split_at_checked`, which promises of its two parts what bytes they have, and not where they lie.
fn cut(rest: &[u8]) -> Option<(&[u8], &[u8])>
    ensures cases { MatchOption result (cut_of rest.now ≡ None) (λ p. cut_of rest.now ≡ Some (p.0.now, p.1.now)) }
    ensures lies { IfSome result (λ p. LiesAt rest.entry 2 p.0 × LiesAt rest.entry (2 + length p.0.now) p.1) }
{
    let [high, low, bytes @ ..] = rest else {
        return None;
    };
    let length = length_of(*high, *low);
    if bytes.len() < length {
        return None;
    }
    Some((&bytes[..length], &bytes[length..]))
}

// What a record says, if it may stand there: the first is a setup, and no other is.
fn content_at(first: bool, bytes: &[u8]) -> Result<Record, Refusal>
    ensures cases { MatchResult result
        (λ r. content_at first bytes.now ≡ Some r)
        (λ e. (content_at first bytes.now ≡ None) × (e ≡ BadRecord)) }
    ensures says { IfOk result (λ r. bytes.now ≡ fields r) }
{
    let content = Record::try_from(bytes)?;
    if content.is_setup() == first {
        Ok(content)
    } else {
        Err(Refusal::BadRecord)
    }
}

impl<'a> Reader<'a> {
    /// A reader at the first record; refused are more than 60,000 bytes, and then a first byte that is not there or not 1.
    pub fn open(bytes: &'a [u8]) -> Result<Reader<'a>, Refusal>
        ensures { MatchResult result (Opened bytes.entry) (λ e. open_refusal bytes.now ≡ Some (refusal e).number) }
    {
        let total = bytes.len();
        if too_long(total) {
            return Err(Refusal::ScheduleTooLong);
        }
        let [1, rest @ ..] = bytes else {
            return Err(Refusal::NoVersionByte);
        };
        Ok(Reader {
            rest,
            total,
            first: true,
        })
    }

    // The offset of what is followed by so many bytes.
    fn offset_before(self, more: usize) -> usize
        ensures { result ≡ self.entry.total - more }
    {
        self.total.saturating_sub(more)
    }

    // The reader once a record was handed out, with these bytes left.
    fn moved(self, left: &'a [u8]) -> Reader<'a>
        ensures rest { result.rest ≡ left.entry }
        ensures total { result.total ≡ self.entry.total }
        ensures first { result.first ≡ false }
    {
        Reader {
            rest: left,
            first: false,
            ..self
        }
    }

    /// The offset at which the next record begins.
    pub fn offset(&self) -> usize
        ensures { result ≡ self.now.total - length self.now.rest.now }
    {
        self.total.saturating_sub(self.rest.len())
    }

    /// The next record, None at the end, or the refusal of what stands there, which is then given again at each further asking.
    pub fn next(&mut self) -> Result<Option<Part<'a>>, Refusal>
        ensures { Asked self.old result self.new }
    {
        if self.rest.is_empty() {
            return Ok(None);
        }
        let (bytes, left) = cut(self.rest).ok_or(Refusal::BadRecord)?;
        let content = content_at(self.first, bytes)?;
        let offset = self.offset_before(left.len()).saturating_sub(bytes.len());
        *self = self.moved(left);
        Ok(Some(Part {
            bytes,
            offset,
            content,
        }))
    }
}
