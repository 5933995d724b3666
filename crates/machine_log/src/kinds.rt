// The kinds of records, and the length of a record by its kind.
ghost use Rattle.machine_log.specs.Kinds.{kind_number, Decodes, HasLength};

// What a record is of. Of revision 1 alone are Tip5 and U32, of revision 2 alone the same with a clock.
#[derive(Clone, Copy, PartialEq, Eq, Debug)]
pub enum RecordKind {
    Reset,
    Tip5,
    U32,
    Stack,
    Ram,
    TimedTip5,
    TimedU32,
}

// A number that no kind of record has.
#[derive(Clone, Copy, PartialEq, Eq, Debug)]
pub struct UnknownKind(pub u64);

impl TryFrom<u64> for RecordKind {
    type Error = UnknownKind;

    ghost try_from_gives = { Decodes };

    fn try_from(number: u64) -> Result<RecordKind, UnknownKind> {
        match number {
            1 => Ok(RecordKind::Reset),
            2 => Ok(RecordKind::Tip5),
            3 => Ok(RecordKind::U32),
            4 => Ok(RecordKind::Stack),
            5 => Ok(RecordKind::Ram),
            6 => Ok(RecordKind::TimedTip5),
            7 => Ok(RecordKind::TimedU32),
            _ => Err(UnknownKind(number)),
        }
    }
}

impl RecordKind {
    // How many bytes stand behind the length field, where the revision has this kind.
    #[tactic(auto, unfolding(machine::specs::Records::length_of))]
    pub fn length(self, revision: u64) -> Option<usize>
        ensures { HasLength revision (kind_number self) result }
    {
        let with_clocks = revision == 2;
        match (self, with_clocks) {
            (RecordKind::Reset, _) => Some(2),
            (RecordKind::Stack | RecordKind::Ram, _) => Some(23),
            (RecordKind::Tip5, false) => Some(772),
            (RecordKind::U32, false) => Some(20),
            (RecordKind::TimedTip5, true) => Some(776),
            (RecordKind::TimedU32, true) => Some(24),
            _ => None,
        }
    }
}

// The same of a kind's number.
pub fn length_of(revision: u64, number: u64) -> Option<usize>
    ensures { HasLength revision number result }
{
    let kind = RecordKind::try_from(number).ok()?;
    kind.length(revision)
}
