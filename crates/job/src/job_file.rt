// A job file read: what runjob is given on its standard input. The file is gone through once for each kind of number in it.
ghost use Rattle.std.specs.Prelude.{◌≡◌, ◌+◌, ◌<◌, length, get_or, drop, eqb, MatchResult};
ghost use Rattle.std.specs.Iterator.{at_most};
ghost use Rattle.choices.specs.Choice.{cond};
ghost use Rattle.job.specs.Listing.{Put};
ghost use Rattle.job.specs.JobFileView.{kind_number, piece_number, Decodes, IsWholePiece, IsPiece, NextPiece, HasColumn, words_of, SameSlices, SameLengths, Room, Says, Breaks};
ghost use Rattle.job.specs.JobFile.{length_in, pieces_of, count_of, numbers_in, column, fault_of, job_of, default_budget, Wanted, Filled};

use crate::frame::{kind_in, number_in, whole_in};
use std::error::Error;
use std::fmt;

// What a file without a budget's record may take.
const DEFAULT_BUDGET: u64 = 16000000;

// ---- records

// What a record says.
#[derive(Clone, Copy, Debug, PartialEq, Eq)]
pub enum Kind {
    Digest,
    Slot,
    PublicWord,
    SecretWord,
    SecretDigest,
    Cell,
    Budget,
}

// A number that is no kind's.
#[derive(Clone, Copy, Debug, PartialEq, Eq)]
pub struct UnknownKind(pub u64);

impl TryFrom<u64> for Kind {
    type Error = UnknownKind;

    ghost try_from_gives = { Decodes };

    fn try_from(number: u64) -> Result<Kind, UnknownKind> {
        match number {
            11 => Ok(Kind::Digest),
            12 => Ok(Kind::Slot),
            13 => Ok(Kind::PublicWord),
            14 => Ok(Kind::SecretWord),
            15 => Ok(Kind::SecretDigest),
            16 => Ok(Kind::Cell),
            17 => Ok(Kind::Budget),
            _ => Err(UnknownKind(number)),
        }
    }
}

impl Kind {
    // How many bytes follow the length's field.
    fn length(self) -> usize
        ensures { (result ≡ length_in (kind_number self)) × (result < 65536) }
    {
        match self {
            Kind::Digest => 42,
            Kind::Slot => 12,
            Kind::PublicWord => 10,
            Kind::SecretWord => 10,
            Kind::SecretDigest => 42,
            Kind::Cell => 18,
            Kind::Budget => 6,
        }
    }
}

// A record's kind and bytes. Where no whole one stands, all that is left counts as one of no kind.
#[derive(Clone, Copy)]
struct Piece<'a> {
    kind: Option<Kind>,
    bytes: &'a [u8],
}

// The record at the start of a file.
fn whole(file: &[u8]) -> Option<Piece<'_>>
    ensures { IsWholePiece file.now result }
{
    if file.len() < 4 {
        return None;
    }
    let kind = Kind::try_from(kind_in(file)).ok()?;
    let bytes = whole_in(file, kind.length())?;
    Some(Piece {
        kind: Some(kind),
        bytes,
    })
}

fn first(file: &[u8]) -> Piece<'_>
    ensures { IsPiece file.now result }
{
    whole(file).unwrap_or(Piece {
        kind: None,
        bytes: file,
    })
}

// The records of a file, one behind the other.
#[derive(Drop)]
struct Pieces<'a>(&'a [u8]);

impl<'a> Iterator for Pieces<'a> {
    type Item = Piece<'a>;

    ghost next_gives = { λ s r t. NextPiece s.0.now r t.0.now };

    ghost remaining = { λ s. at_most (length s.0.now) };

    fn next(&mut self) -> Option<Piece<'a>> {
        if self.0.is_empty() {
            return None;
        }
        let piece = first(self.0);
        let n = piece.bytes.len();
        self.0 = &self.0[n..];
        Some(piece)
    }
}

fn same_kind(a: Option<Kind>, b: Option<Kind>) -> bool
    ensures { result ≡ eqb (piece_number a) (piece_number b) }
{
    a == b
}

// How many records are of a kind.
fn count(file: &[u8], kind: Option<Kind>) -> usize
    ensures { result ≡ count_of (piece_number kind) (pieces_of file.now) }
{
    let mut n = 0;
    for piece in Pieces(file) {
        if same_kind(piece.kind, kind) {
            n += 1;
        }
    }
    n
}

// ---- a broken file

// Why a file is broken. Each reason has the number 50.
#[derive(Clone, Copy, Debug, PartialEq, Eq)]
pub enum BrokenFile {
    TooLong,
    StartsOtherwise,
    Digests,
    Slots,
    Budgets,
    NoRecord,
}

impl BrokenFile {
    pub fn number(self) -> u64
        ensures { result ≡ 50 }
    {
        50
    }
}

impl fmt::Display for BrokenFile {
    fn fmt<W: fmt::Write>(&self, f: &mut fmt::Formatter<W>) -> fmt::Result {
        f.write_str(match self {
            BrokenFile::TooLong => "more than 65,536 bytes",
            BrokenFile::StartsOtherwise => "the first record is no digest",
            BrokenFile::Digests => "more than one digest",
            BrokenFile::Slots => "more than 1,024 slots",
            BrokenFile::Budgets => "more than one budget",
            BrokenFile::NoRecord => "bytes that are no record",
        })
    }
}

impl Error for BrokenFile {}

fn checked(file: &[u8]) -> Result<(), BrokenFile>
    ensures { MatchResult result (λ _. fault_of file.now ≡ 0) (λ _. fault_of file.now ≡ 50) }
{
    if file.len() > 65536 {
        return Err(BrokenFile::TooLong);
    }
    if !same_kind(first(file).kind, Some(Kind::Digest)) {
        return Err(BrokenFile::StartsOtherwise);
    }
    if count(file, Some(Kind::Digest)) != 1 {
        return Err(BrokenFile::Digests);
    }
    if count(file, Some(Kind::Slot)) > 1024 {
        return Err(BrokenFile::Slots);
    }
    if count(file, Some(Kind::Budget)) > 1 {
        return Err(BrokenFile::Budgets);
    }
    if count(file, None) != 0 {
        return Err(BrokenFile::NoRecord);
    }
    Ok(())
}

// ---- numbers

// Which numbers of a kind's records are meant: `many` of `width` bytes each, from byte `from` of the fields on.
#[derive(Clone, Copy)]
struct Column {
    kind: Kind,
    from: usize,
    width: usize,
    many: usize,
}

impl Column {
    // Those of a record, behind place `to`.
    fn put(self, piece: Piece<'_>, out: &mut [u64], to: usize) -> usize
        requires { HasColumn piece.bytes.now (piece_number piece.kind) out.old (kind_number self.kind) self.from self.width self.many to }
        ensures { Put out.old out.new to (numbers_in self.width (cond (eqb (piece_number piece.entry.kind) (kind_number self.kind)) self.many 0) (drop self.from (drop 4 piece.entry.bytes.now))) self.many result }
    {
        if !same_kind(piece.kind, Some(self.kind)) {
            return to;
        }
        let fields = &piece.bytes[4 + self.from..];
        let n = self.width;
        for i in 0..self.many {
            out[to + i] = number_in(&fields[n * i..n * i + n]);
        }
        to + self.many
    }

    // Those of all records.
    fn fill(self, file: &[u8], out: &mut [u64]) -> usize
        requires { Wanted file.now out.old (kind_number self.kind) self.from self.width self.many }
        ensures { Filled out.old out.new (column (kind_number self.kind) self.from self.width self.many (pieces_of file.now)) result }
    {
        let mut to = 0;
        for piece in Pieces(file) {
            to = self.put(piece, out, to);
        }
        to
    }
}

const DIGEST: Column = Column {
    kind: Kind::Digest,
    from: 0,
    width: 8,
    many: 5,
};

const OPCODES: Column = Column {
    kind: Kind::Slot,
    from: 0,
    width: 2,
    many: 1,
};

const ARGUMENTS: Column = Column {
    kind: Kind::Slot,
    from: 2,
    width: 8,
    many: 1,
};

const PUBLIC: Column = Column {
    kind: Kind::PublicWord,
    from: 0,
    width: 8,
    many: 1,
};

const SECRET: Column = Column {
    kind: Kind::SecretWord,
    from: 0,
    width: 8,
    many: 1,
};

const DIGESTS: Column = Column {
    kind: Kind::SecretDigest,
    from: 0,
    width: 8,
    many: 5,
};

const ADDRESSES: Column = Column {
    kind: Kind::Cell,
    from: 0,
    width: 8,
    many: 1,
};

const VALUES: Column = Column {
    kind: Kind::Cell,
    from: 8,
    width: 8,
    many: 1,
};

const BUDGET: Column = Column {
    kind: Kind::Budget,
    from: 0,
    width: 4,
    many: 1,
};

// ---- the job

// What a file says beside the words in the slices, and how many words there are of each kind.
#[derive(Clone, Copy)]
pub struct JobFile {
    pub digest: [u64; 5],
    pub slots: usize,
    pub publics: usize,
    pub secrets: usize,
    // in words, five a digest
    pub digests: usize,
    pub cells: usize,
    pub budget: u64,
}

fn digest_of(file: &[u8]) -> [u64; 5]
    requires { fault_of file.now ≡ 0 }
    ensures { result ≡ column 11 0 8 5 (pieces_of file.now) }
{
    let mut words = [0u64; 5];
    DIGEST.fill(file, &mut words);
    words
}

// The budget's record overwrites what an absent one means.
fn budget_of(file: &[u8]) -> u64
    requires { fault_of file.now ≡ 0 }
    ensures { result ≡ get_or (column 17 0 4 1 (pieces_of file.now)) 0 default_budget }
{
    let mut words = [DEFAULT_BUDGET; 1];
    BUDGET.fill(file, &mut words);
    words[0]
}

// The slices that a file's words go to: lent, and no `Vec`, so that reading a file cannot run out of memory. How many are filled stands in `JobFile`.
#[derive(Drop)]
pub struct Words<'a> {
    pub opcodes: &'a mut [u64],
    pub arguments: &'a mut [u64],
    pub public: &'a mut [u64],
    pub secret: &'a mut [u64],
    pub digests: &'a mut [u64],
    pub addresses: &'a mut [u64],
    pub values: &'a mut [u64],
}

// The job that a file says. The slices keep what they held behind its words; a broken file leaves them as they were.
pub fn read_job(file: &[u8], words: &mut Words) -> Result<JobFile, BrokenFile>
    requires { Room (words_of words.old) }
    ensures same { SameSlices words.old words.new }
    ensures lengths { SameLengths (words_of words.old) (words_of words.new) }
    ensures job { MatchResult result (λ r. Says (job_of file.now) r (words_of words.old) (words_of words.new))
        (λ e. Breaks (job_of file.now) (words_of words.old) (words_of words.new)) }
{
    checked(file)?;
    let slots = OPCODES.fill(file, words.opcodes);
    ARGUMENTS.fill(file, words.arguments);
    let publics = PUBLIC.fill(file, words.public);
    let secrets = SECRET.fill(file, words.secret);
    let digests = DIGESTS.fill(file, words.digests);
    let cells = ADDRESSES.fill(file, words.addresses);
    VALUES.fill(file, words.values);
    Ok(JobFile {
        digest: digest_of(file),
        slots,
        publics,
        secrets,
        digests,
        cells,
        budget: budget_of(file),
    })
}
