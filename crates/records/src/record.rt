// What a record of a schedule says.
ghost use Rattle.std.specs.Prelude.{◌≡◌, [], ◌∷◌, ◌++◌, Some, IfOk};
ghost use Rattle.std.specs.Option.{ok_or};
ghost use Rattle.basis.specs.declared.refusal.Refusal.TheVariants.{BadRecord};
ghost use Rattle.records.specs.Records.{scheme, said, described, is_setup, two, four, fields, scheme_named, seat_call, setup_call, begin_call, decoded};

use basis::kind::Kind;
use basis::refusal::Refusal;
use std::fmt;

/// The schemes that a setup can name.
#[derive(Clone, Copy, PartialEq, Eq, Debug)]
pub enum SchemeName {
    Full,
    Owner,
    Version,
}

/// One record, decoded. Seats are plain numbers here: their range is the business of the calls.
#[derive(Clone, Copy, PartialEq, Eq, Debug)]
pub enum Record {
    Setup {
        scheme: SchemeName,
        cells: u16,
        window: u8,
    },
    Join {
        seat: u8,
    },
    Leave {
        seat: u8,
    },
    Begin {
        kind: Kind,
        seat: u8,
        sector: u32,
    },
    Step {
        seat: u8,
    },
    Abandon {
        seat: u8,
    },
}

impl SchemeName {
    /// The number by which a setup names this scheme, 1 to 3.
    pub fn number(self) -> u8
        ensures { result ≡ (scheme self).number }
    {
        match self {
            SchemeName::Full => 1,
            SchemeName::Owner => 2,
            SchemeName::Version => 3,
        }
    }

    /// The scheme's name, for a person.
    pub fn word(self) -> &'static str
        ensures { result.now ≡ (scheme self).word }
    {
        match self {
            SchemeName::Full => "full",
            SchemeName::Owner => "owner",
            SchemeName::Version => "version",
        }
    }
}

impl fmt::Display for SchemeName {
    ghost output = { λ s. Some (scheme s).word };

    fn fmt<W: fmt::Write>(&self, f: &mut fmt::Formatter<W>) -> fmt::Result {
        f.write_str(self.word())
    }
}

// The scheme that a setup names by this number; another number makes a bad record.
impl TryFrom<u8> for SchemeName {
    type Error = Refusal;

    ghost try_from_gives = { λ number r. (r ≡ ok_or (scheme_named number) BadRecord) ×
        IfOk r (λ s. (scheme s).number ≡ number) };

    // called and not inlined: one record in a schedule has a scheme
    #[inline(never)]
    fn try_from(number: u8) -> Result<SchemeName, Refusal> {
        match number {
            1 => Ok(SchemeName::Full),
            2 => Ok(SchemeName::Owner),
            3 => Ok(SchemeName::Version),
            _ => Err(Refusal::BadRecord),
        }
    }
}

impl Record {
    /// The number of this case, 0 to 7: the call byte.
    pub fn number(self) -> u8
        ensures { result ≡ (said self).number }
    {
        match self {
            Record::Setup { .. } => 0,
            Record::Join { .. } => 1,
            Record::Leave { .. } => 2,
            Record::Begin { kind, .. } => match kind {
                Kind::Lookup => 3,
                Kind::Insert => 4,
                Kind::Remove => 5,
            },
            Record::Step { .. } => 6,
            Record::Abandon { .. } => 7,
        }
    }

    /// Whether this is a setup, which has to be the first record and no other.
    pub fn is_setup(self) -> bool
        ensures { result ≡ is_setup self }
    {
        matches!(self, Record::Setup { .. })
    }
}

// The calls whose only field is a seat.
fn seat_record(call: u8, seat: u8) -> Result<Record, Refusal>
    ensures answer { result ≡ ok_or (seat_call call seat) BadRecord }
    ensures bytes { IfOk result (λ r. fields r ≡ call ∷ seat ∷ []) }
{
    match call {
        1 => Ok(Record::Join { seat }),
        2 => Ok(Record::Leave { seat }),
        6 => Ok(Record::Step { seat }),
        7 => Ok(Record::Abandon { seat }),
        _ => Err(Refusal::BadRecord),
    }
}

fn setup_record(call: u8, number: u8, cells: u16, window: u8) -> Result<Record, Refusal>
    ensures answer { result ≡ ok_or (setup_call call number cells window) BadRecord }
    ensures bytes { IfOk result (λ r. fields r ≡ call ∷ number ∷ (two cells ++ window ∷ [])) }
{
    if call != 0 {
        return Err(Refusal::BadRecord);
    }
    let scheme = SchemeName::try_from(number)?;
    Ok(Record::Setup {
        scheme,
        cells,
        window,
    })
}

fn begin_record(call: u8, seat: u8, sector: u32) -> Result<Record, Refusal>
    ensures answer { result ≡ ok_or (begin_call call seat sector) BadRecord }
    ensures bytes { IfOk result (λ r. fields r ≡ call ∷ seat ∷ four sector) }
{
    let kind = match call {
        3 => Kind::Lookup,
        4 => Kind::Insert,
        5 => Kind::Remove,
        _ => return Err(Refusal::BadRecord),
    };
    Ok(Record::Begin { kind, seat, sector })
}

impl fmt::Display for Record {
    ghost output = { λ r. Some (described r) };

    fn fmt<W: fmt::Write>(&self, f: &mut fmt::Formatter<W>) -> fmt::Result {
        match *self {
            Record::Setup {
                scheme,
                cells,
                window,
            } => write!(f, "setup {scheme}, cells {cells}, window {window}"),
            Record::Join { seat } => write!(f, "join, seat {seat}"),
            Record::Leave { seat } => write!(f, "leave, seat {seat}"),
            Record::Begin { kind, seat, sector } => {
                write!(f, "begin {kind}, seat {seat}, sector {sector}")
            }
            Record::Step { seat } => write!(f, "step, seat {seat}"),
            Record::Abandon { seat } => write!(f, "abandon, seat {seat}"),
        }
    }
}

// What bytes say, from the call byte on, and then they are that record's bytes; bytes that say no record are a bad record.
impl TryFrom<&[u8]> for Record {
    type Error = Refusal;

    ghost try_from_gives = { λ bytes r. (r ≡ ok_or (decoded bytes.now) BadRecord) ×
        IfOk r (λ rec. fields rec ≡ bytes.now) };

    #[inline(always)]
    fn try_from(bytes: &[u8]) -> Result<Record, Refusal> {
        match bytes {
            [call, seat] => seat_record(*call, *seat),
            [call, scheme, high, low, window] => {
                let cells = u16::from_be_bytes([*high, *low]);
                setup_record(*call, *scheme, cells, *window)
            }
            [call, seat, a, b, c, d] => {
                let sector = u32::from_be_bytes([*a, *b, *c, *d]);
                begin_record(*call, *seat, sector)
            }
            _ => Err(Refusal::BadRecord),
        }
    }
}
