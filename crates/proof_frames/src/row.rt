// The rows of frames: for each place the kind and the fields of the frames that it allows.
ghost use Rattle.std.specs.Prelude.{◌≡◌, ◌↔◌, ℕ, ◌+◌, ◌-◌, ◌*◌, ◌<◌, ◌≤◌, ◌++◌, ◌∷◌, [], length, drop, get_or, IsTrue, IfSome, IfNone, ◌≢◌};
ghost use Rattle.std.specs.Int.{w32, w64, from_le_bytes};
ghost use Rattle.zk_model.specs.Field.{IsElement};
ghost use Rattle.zk_model.specs.Frames.{frame_length};
ghost use Rattle.zk_model.specs.declared.limits.TheConstants.{MAX_PAYLOAD};
ghost use Rattle.proof_frames.specs.Readings.{IsShortPlace};
ghost use Rattle.proof_frames.specs.Rows.{May, told_at, next_with, number_size, last_bytes};
ghost use Rattle.proof_frames.specs.declared.row.Slot.TheVariants as slot;

use crate::frame::number_of;
use mersenne_field::Fe;
use zk_model::{Expect, FrameKind, MAX_NODES, MAX_UNITS};

/// What stands in a payload: so many times so many bytes, each in a range; an element; a number of 32 bits in a range; or a decision, which
/// is a byte of 0 or 1 and a number of 32 bits, 0 behind a 1. Elements and numbers have their low byte first.
#[derive(Clone, Copy, Debug, PartialEq, Eq)]
pub(crate) enum Field {
    Bytes {
        count: usize,
        size: usize,
        least: u8,
        most: u8,
    },
    Element,
    Number {
        least: u32,
        most: u32,
    },
    Decision,
}

/// What stands after a frame's header.
#[derive(Clone, Copy, Debug, PartialEq, Eq)]
pub(crate) enum Payload {
    /// So many elements.
    Elements {
        count: usize,
    },
    /// So many times two fields.
    Fields {
        times: usize,
        first: Field,
        second: Field,
    },
    /// Three fields.
    Three {
        first: Field,
        second: Field,
        third: Field,
    },
}

/// The kind of a frame, and what stands after its header.
#[derive(Clone, Copy, Debug, PartialEq, Eq)]
pub(crate) struct Row {
    pub(crate) kind: FrameKind,
    pub(crate) payload: Payload,
}

/// What may come at one byte of a frame: a byte in a range; the last byte of an element; after so many bytes of it, a byte
/// of a number in a range; or a byte that is 0 where the one so many and one before it is 1.
#[derive(Clone, Copy, Debug, PartialEq, Eq)]
pub(crate) enum Slot {
    Range { least: u8, most: u8 },
    Last,
    Number { least: u32, most: u32, at: usize },
    Behind { at: usize },
}

/// The place of the byte that tells the row of a frame.
pub(crate) fn told_at(place: Expect) -> usize
    ensures { result ≡ told_at place }
{
    match place {
        Expect::Hello => 1,
        _ => 0,
    }
}

/// How many bytes of the frame at a place are wanted before the byte that tells its row is there.
pub(crate) fn untold_length(place: Expect) -> usize
    requires { IsShortPlace place }
    ensures { result ≡ frame_length place [] }
{
    match place {
        Expect::Hello => 2,
        Expect::Grant | Expect::Block => 1,
        _ => Row::at(place, 0).length(),
    }
}

/// The 8 bytes of an element of which 7 are there.
pub(crate) fn completed(part: &[u8], last: u8) -> Option<[u8; 8]>
    ensures word { IfSome result (λ word. (word ≡ part.now ++ last ∷ []) × (length part.now ≡ 7)) }
    ensures none { IfNone result (length part.now ≢ 7) }
{
    let [b0, b1, b2, b3, b4, b5, b6] = part else {
        return None;
    };
    Some([*b0, *b1, *b2, *b3, *b4, *b5, *b6, last])
}

/// Whether the last 7 bytes and one more spell an element.
fn ends_element(bytes: &[u8], last: u8) -> bool
    requires { 7 ≤ length bytes.now }
    ensures { IsTrue result ↔ IsElement (from_le_bytes w64
        (drop (length bytes.now - 7) bytes.now ++ last ∷ [])) }
{
    match completed(&bytes[bytes.len() - 7..], last) {
        Some(word) => Fe::from_le(&word).is_some(),
        None => false,
    }
}

/// The number of which these are the low bytes, and one more.
fn low_number(bytes: &[u8], last: u8) -> u32
    ensures { result ≡ from_le_bytes w32 (bytes.now ++ last ∷ []) }
{
    let word = match bytes {
        [] => [last, 0, 0, 0],
        [b0] => [*b0, last, 0, 0],
        [b0, b1] => [*b0, *b1, last, 0],
        [b0, b1, b2] => [*b0, *b1, *b2, last],
        [b0, b1, b2, b3, ..] => [*b0, *b1, *b2, *b3],
    };
    u32::from_le_bytes(word)
}

/// How many numbers the bytes of one tell apart, up to the byte at a place.
fn number_size(at: usize) -> u64
    ensures { result ≡ number_size at }
{
    match at {
        0 => 1 << 8,
        1 => 1 << 16,
        2 => 1 << 24,
        _ => 1 << 32,
    }
}

/// Whether a number of the range has as many last bytes, and one more, as its low bytes.
fn goes_on_to_number(least: u32, most: u32, at: usize, bytes: &[u8], last: u8) -> bool
    ensures { IsTrue result ↔ next_with least (number_size at)
        (from_le_bytes w32 (last_bytes at bytes.now ++ last ∷ [])) ≤ most }
{
    let from = bytes.len().saturating_sub(at);
    let low = u64::from(low_number(&bytes[from..], last));
    let size = number_size(at);
    let least = u64::from(least);
    least + (low + size - least % size) % size <= u64::from(most)
}

/// Whether a byte may come so many and one behind another.
fn may_stand_behind(at: usize, before: &[u8], byte: u8) -> bool
    ensures { IsTrue result ↔ May (slot.Behind at) before.now byte }
{
    let code = match before.get(before.len().saturating_sub(at).saturating_sub(1)) {
        Some(code) => *code,
        None => 0,
    };
    code != 1 || byte == 0
}

impl Slot {
    ghost use Rattle.proof_frames.specs.Rows.{May};

    /// Whether a byte may come after others.
    pub(crate) fn allows(self, before: &[u8], byte: u8) -> bool
        ensures { IsTrue result ↔ May self before.now byte }
    {
        match self {
            Slot::Range { least, most } => least <= byte && byte <= most,
            Slot::Last => before.len() < 7 || ends_element(before, byte),
            Slot::Number { least, most, at } => goes_on_to_number(least, most, at, before, byte),
            Slot::Behind { at } => may_stand_behind(at, before, byte),
        }
    }
}

impl Field {
    ghost use Rattle.proof_frames.specs.Rows.{any, between, free, width, IsFree, field_slots};
    ghost use Rattle.proof_frames.specs.declared.row.Field.TheVariants as field;

    /// So many bytes, so many times, each in a range.
    fn bytes(count: usize, size: usize, least: u8, most: u8) -> Self
        ensures { result ≡ field.Bytes count size least most }
    {
        Field::Bytes {
            count,
            size,
            least,
            most,
        }
    }

    /// So many bytes of any value.
    fn any(count: usize) -> Self
        ensures { result ≡ any count }
    {
        Field::bytes(count, 1, 0, 255)
    }

    /// A byte in a range.
    fn between(least: u8, most: u8) -> Self
        ensures { result ≡ between least most }
    {
        Field::bytes(1, 1, least, most)
    }

    /// How many bytes it has.
    fn width(self) -> usize
        requires { width self ≤ MAX_PAYLOAD }
        ensures { result ≡ width self }
    {
        match self {
            Field::Bytes { count, size, .. } => size * count,
            Field::Element => 8,
            Field::Number { .. } => 4,
            Field::Decision => 5,
        }
    }

    /// Whether its bytes may be any.
    fn is_free(self) -> bool
        ensures { IsTrue result → IsFree self }
    {
        match self {
            Field::Bytes { least, most, .. } => least == 0 && most == 255,
            Field::Element | Field::Number { .. } | Field::Decision => false,
        }
    }

    /// What may come at one of its bytes.
    fn slot(self, at: usize) -> Slot
        requires { at < width self }
        ensures { result ≡ get_or (field_slots self) at free }
    {
        match self {
            Field::Bytes { least, most, .. } => Slot::Range { least, most },
            Field::Element if at == 7 => Slot::Last,
            Field::Element => Slot::Range {
                least: 0,
                most: 255,
            },
            Field::Number { least, most } => Slot::Number { least, most, at },
            Field::Decision if at == 0 => Slot::Range { least: 0, most: 1 },
            Field::Decision => Slot::Behind { at: at - 1 },
        }
    }
}

impl Payload {
    ghost use Rattle.std.specs.Prelude.{flat_map};
    ghost use Rattle.proof_frames.specs.Rows.{one_field, want_payload, free, width, field_slots, payload_fields, payload_length};
    ghost use Rattle.proof_frames.specs.declared.row.Field.TheVariants as field;
    ghost use Rattle.proof_frames.specs.declared.row.Payload.TheVariants as payload;

    /// Two fields, so many times.
    fn fields(times: usize, first: Field, second: Field) -> Self
        ensures { result ≡ payload.Fields times first second }
    {
        Payload::Fields {
            times,
            first,
            second,
        }
    }

    /// One field alone.
    fn one_field(field: Field) -> Self
        ensures { result ≡ one_field field }
    {
        Payload::fields(1, field, Field::any(0))
    }

    /// For each tree so many bytes for each level, each up to the most, and an element.
    fn trees(trees: usize, height: usize, size: usize, most: u8) -> Self
        ensures { result ≡ payload.Fields trees (field.Bytes height size 0 most) field.Element }
    {
        Payload::fields(trees, Field::bytes(height, size, 0, most), Field::Element)
    }

    /// A node, any number of 64 bits, and a count of units.
    fn want() -> Self
        ensures { result ≡ want_payload }
    {
        Payload::Three {
            first: Field::Number {
                least: 0,
                most: MAX_NODES - 1,
            },
            second: Field::any(8),
            third: Field::Number {
                least: 1,
                most: MAX_UNITS as u32,
            },
        }
    }

    /// How many bytes it has.
    fn length(self) -> usize
        requires { payload_length self ≤ MAX_PAYLOAD }
        ensures { result ≡ payload_length self }
    {
        match self {
            Payload::Elements { count } => 8 * count,
            Payload::Fields { times: 0, .. } => 0,
            Payload::Fields {
                times,
                first,
                second,
            } => times * (first.width() + second.width()),
            Payload::Three {
                first,
                second,
                third,
            } => first.width() + second.width() + third.width(),
        }
    }

    /// What may come at one of its bytes.
    fn slot(self, at: usize) -> Slot
        requires short { payload_length self ≤ MAX_PAYLOAD }
        requires within { at < payload_length self }
        ensures { result ≡ get_or (flat_map field_slots (payload_fields self)) at free }
    {
        match self {
            Payload::Elements { .. } => Field::Element.slot(at % 8),
            Payload::Fields { first, second, .. } => {
                let width = first.width();
                let at = at % (width + second.width());
                if at < width {
                    first.slot(at)
                } else {
                    second.slot(at - width)
                }
            }
            Payload::Three {
                first,
                second,
                third,
            } => {
                let width = first.width();
                if at < width {
                    return first.slot(at);
                }
                let behind = at - width;
                let width = second.width();
                if behind < width {
                    second.slot(behind)
                } else {
                    third.slot(behind - width)
                }
            }
        }
    }

    /// How many bytes from one on may be any.
    pub(crate) fn free_run(self, at: usize) -> usize
        requires short { payload_length self ≤ MAX_PAYLOAD }
        requires within { at < payload_length self }
        ensures { (j : ℕ) → j < result
            → get_or (flat_map field_slots (payload_fields self)) (at + j) free ≡ free }
    {
        let Payload::Fields { first, second, .. } = self else {
            return 0;
        };
        if !first.is_free() {
            return 0;
        }
        let width = first.width();
        let at = at % (width + second.width());
        if at < width { width - at } else { 0 }
    }
}

impl Row {
    ghost use Rattle.std.specs.Prelude.{flat_map};
    ghost use Rattle.proof_frames.specs.Rows.{row_of, row_fields, header, field_slots, free, payload_length};
    ghost use Rattle.proof_frames.specs.Holding.{raw_length, elements_in};

    /// The row of the frame at a place, of which the byte that tells it is known. A further frame is a row here.
    pub(crate) fn at(place: Expect, byte: u8) -> Self
        requires { IsShortPlace place }
        ensures { result ≡ row_of place byte }
    {
        let (kind, payload) = match place {
            Expect::Hello if byte == 129 => (FrameKind::Hello, Payload::one_field(Field::any(129))),
            Expect::Hello => (FrameKind::Hello, Payload::one_field(Field::any(97))),
            Expect::ShortHello => (FrameKind::Hello, Payload::one_field(Field::any(97))),
            Expect::Grant if byte == 10 => {
                (FrameKind::Refuse, Payload::one_field(Field::between(1, 4)))
            }
            Expect::Grant => (FrameKind::Grant, Payload::one_field(Field::any(16))),
            Expect::Ask { height, trees, .. } => {
                (FrameKind::ExtendAsk, Payload::trees(trees, height, 1, 1))
            }
            Expect::Reply { height, trees, .. } => {
                (
                    FrameKind::ExtendReply,
                    Payload::trees(trees, height, 32, 255),
                )
            }
            Expect::Corrections { count } => (FrameKind::Corrections, Payload::Elements { count }),
            Expect::Challenge => (FrameKind::Challenge, Payload::Elements { count: 1 }),
            Expect::Sums { sections } => {
                let count = 2 * sections;
                (FrameKind::Sums, Payload::Elements { count })
            }
            Expect::Openings { count } => (FrameKind::Openings, Payload::Elements { count }),
            Expect::Verdict => {
                let payload = Payload::fields(1, Field::between(0, 2), Field::any(4));
                (FrameKind::Verdict, payload)
            }
            Expect::PolySums { count } => (FrameKind::Sums, Payload::Elements { count }),
            Expect::PolyVerdict => (FrameKind::Verdict, Payload::one_field(Field::Decision)),
            Expect::Want => (FrameKind::Want, Payload::want()),
            Expect::Block if byte == 13 => (FrameKind::Out, Payload::one_field(Field::any(20))),
            Expect::Block => (FrameKind::Block, Payload::one_field(Field::any(24))),
        };
        Row { kind, payload }
    }

    /// How many bytes the frame has.
    pub(crate) fn length(self) -> usize
        requires { payload_length self.payload ≤ MAX_PAYLOAD }
        ensures { result ≡ 5 + payload_length self.payload }
    {
        5 + self.payload.length()
    }

    /// How many of its bytes are held as they come: all, but elements.
    pub(crate) fn raw_length(self) -> usize
        requires { payload_length self.payload ≤ MAX_PAYLOAD }
        ensures { result ≡ raw_length self.payload }
    {
        match self.payload {
            Payload::Elements { .. } => 5,
            _ => self.length(),
        }
    }

    /// How many elements are held as elements.
    pub(crate) fn elements(self) -> usize
        ensures { result ≡ elements_in self.payload }
    {
        match self.payload {
            Payload::Elements { count } => count,
            _ => 0,
        }
    }

    /// The bytes of the kind and of the length.
    fn header(self) -> [u8; 5]
        requires { payload_length self.payload ≤ MAX_PAYLOAD }
        ensures { result ≡ header self }
    {
        let [l0, l1, l2, l3] = (self.payload.length() as u32).to_le_bytes();
        [number_of(self.kind), l0, l1, l2, l3]
    }

    /// What may come at one of its bytes.
    pub(crate) fn slot(self, at: usize) -> Slot
        requires short { payload_length self.payload ≤ MAX_PAYLOAD }
        requires within { at < 5 + payload_length self.payload }
        ensures { result ≡ get_or (flat_map field_slots (row_fields self)) at free }
    {
        if at < 5 {
            let byte = self.header()[at];
            return Slot::Range {
                least: byte,
                most: byte,
            };
        }
        self.payload.slot(at - 5)
    }
}
