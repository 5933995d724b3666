// A record of a log, read where it stands.
ghost use Rattle.std.specs.Prelude.{◌≡◌, ◌+◌, ◌≤◌, ◌<◌, length};
ghost use Rattle.machine.specs.Records.{length_of};
ghost use Rattle.machine_log.specs.Kinds.{kind_number};
ghost use Rattle.replay_scan.specs.RecordView.{log_at, Number, Framed, whole_head, Headed, OfStack, OfRam, OfTimed};

use machine_log::kinds::RecordKind;

// A log of a revision.
#[derive(Clone, Copy)]
pub struct Log<'a> {
    pub bytes: &'a [u8],
    pub revision: u64,
}

// A record's kind, and how many bytes stand behind its length field.
#[derive(Clone, Copy)]
pub struct Frame {
    pub kind: RecordKind,
    pub size: usize,
}

// What stands at a place: nothing more, no whole record, or one.
#[derive(Clone, Copy)]
pub enum Head {
    End,
    Broken,
    Record(Frame),
}

// The fields of a record of the op stack, whose pointer is `place`, or of RAM, whose address it is. The direction is the byte that stands
// there, since any other than 0 and 1 is refused behind the clock.
#[derive(Clone, Copy)]
pub struct Fields {
    pub clock: u64,
    pub place: u64,
    pub value: u64,
    pub dir: u64,
}

// Length 23 and kind 4 or 5, as one number of four bytes.
const STACK_FRAME: u32 = 262167;

const RAM_FRAME: u32 = 327703;

// ---- numbers, low byte first

fn u16_at(log: &[u8], at: usize) -> u16
    requires { at + 2 ≤ length log.now }
    ensures { Number log.now at 2 65536 result }
{
    u16::from_le_bytes([log[at], log[at + 1]])
}

fn u32_at(log: &[u8], at: usize) -> u32
    requires { at + 4 ≤ length log.now }
    ensures { Number log.now at 4 4294967296 result }
{
    u32::from_le_bytes([log[at], log[at + 1], log[at + 2], log[at + 3]])
}

fn u64_at(log: &[u8], at: usize) -> u64
    requires { at + 8 ≤ length log.now }
    ensures { Number log.now at 8 18446744073709551616 result }
{
    u64::from_le_bytes([
        log[at],
        log[at + 1],
        log[at + 2],
        log[at + 3],
        log[at + 4],
        log[at + 5],
        log[at + 6],
        log[at + 7],
    ])
}

// ---- a record

// A record of this kind and size, if it is whole in the bytes that are left.
fn whole(left: usize, kind: RecordKind, size: usize) -> Head
    requires { size < 65536 }
    ensures { result ≡ whole_head left kind size }
{
    if left < size + 2 {
        return Head::Broken;
    }
    Head::Record(Frame { kind, size })
}

impl Log<'_> {
    // Length and kind of what stands at a place, as one number.
    fn frame_at(self, at: usize) -> u32
        requires { at + 4 ≤ length self.bytes.now }
        ensures { Framed self.entry.bytes.now at result }
    {
        let size = u16_at(self.bytes, at);
        let kind = u16_at(self.bytes, at + 2);
        u32::from(size) + 65536 * u32::from(kind)
    }

    // The frame of what stands at a place. Kinds 4 and 5 come first and by constants, so that a walk need not wait for a length that it loads.
    pub fn head_at(self, at: usize) -> Head
        requires { at ≤ length self.bytes.now }
        ensures { Headed (log_at self.entry) at result }
    {
        let left = self.bytes.len() - at;
        if left == 0 {
            return Head::End;
        }
        if left < 4 {
            return Head::Broken;
        }
        let frame = self.frame_at(at);
        if frame == STACK_FRAME {
            return whole(left, RecordKind::Stack, 23);
        }
        if frame == RAM_FRAME {
            return whole(left, RecordKind::Ram, 23);
        }
        let Ok(kind) = RecordKind::try_from(u64::from(frame / 65536)) else {
            return Head::Broken;
        };
        let Some(want) = kind.length(self.revision) else {
            return Head::Broken;
        };
        let size = (frame % 65536) as usize;
        if size != want {
            return Head::Broken;
        }
        whole(left, kind, size)
    }

    // The two kinds have value and direction at other places: one function for both would be passed these, and is no plainer.
    pub fn stack_fields(self, at: usize) -> Fields
        requires { at + 25 ≤ length self.bytes.now }
        ensures { OfStack self.entry.bytes.now at result }
    {
        Fields {
            clock: u64::from(u32_at(self.bytes, at + 4)),
            place: u64_at(self.bytes, at + 8),
            value: u64_at(self.bytes, at + 17),
            dir: u64::from(self.bytes[at + 16]),
        }
    }

    pub fn ram_fields(self, at: usize) -> Fields
        requires { at + 25 ≤ length self.bytes.now }
        ensures { OfRam self.entry.bytes.now at result }
    {
        Fields {
            clock: u64::from(u32_at(self.bytes, at + 4)),
            place: u64_at(self.bytes, at + 8),
            value: u64_at(self.bytes, at + 16),
            dir: u64::from(self.bytes[at + 24]),
        }
    }

    // The clock of a record of kind 6 or 7.
    pub fn timed_clock(self, at: usize, kind: RecordKind) -> u64
        requires { (at + length_of self.revision (kind_number kind) + 2 ≤ length self.bytes.now) × (8 ≤ length_of self.revision (kind_number kind) + 2) × (5 < kind_number kind) }
        ensures { OfTimed (log_at self.entry) at (kind_number kind) result }
    {
        u64::from(u32_at(self.bytes, at + 4))
    }
}
