// The bytes of the frame that is under way.
ghost use Rattle.std.specs.Prelude.{◌≡◌, ◌+◌, ◌*◌, ◌<◌, ◌≤◌, ◌++◌, [], ◌∷◌, length, drop, flat_map, All, IfSome, OnOk, true, false, vec_len, vec_capacity};
ghost use Rattle.zk_model.specs.Bytes.{element_bytes};
ghost use Rattle.zk_model.specs.Field.{IsElement};
ghost use Rattle.zk_model.specs.Frames as model;
ghost use Rattle.proof_frames.specs.Readings.{IsShortPlace};

use crate::row::{Payload, Row, completed, told_at, untold_length};
use mersenne_field::Fe;
use std::alloc::{AllocError, Global};
use std::mem;
use zk_model::{Expect, FrameKind};

/// The bytes that are taken: the header, and the payload if it has trees or no elements, as they came; whole elements as
/// elements; and the bytes of an element that is not whole.
#[derive(Debug, Drop)]
pub(crate) struct Held {
    pub(crate) start: Vec<u8>,
    pub(crate) elements: Vec<Fe>,
    pub(crate) part: Vec<u8>,
}

/// The element at the front, and the bytes after it, if the front spells one.
#[inline]
fn element_at(bytes: &[u8]) -> Option<(Fe, &[u8])>
    ensures { IfSome result (λ found.
        (bytes.now ≡ element_bytes found.0 ++ found.1.now) × IsElement found.0) }
{
    let [b0, b1, b2, b3, b4, b5, b6, b7, rest @ ..] = bytes else {
        return None;
    };
    let element = Fe::from_le(&[*b0, *b1, *b2, *b3, *b4, *b5, *b6, *b7])?;
    let _value = element.value();
    Some((element, rest))
}

/// Appends bytes for which there is room.
fn push_bytes(start: &mut Vec<u8>, bytes: &[u8])
    requires room { vec_len start.old + length bytes.now ≤ vec_capacity start.old }
    ensures items { start.new.items ≡ start.old.items ++ bytes.now }
    ensures capacity { vec_capacity start.new ≡ vec_capacity start.old }
{
    for byte in bytes {
        start.push_reserved(*byte);
    }
}

/// Takes whole elements until a piece has no more at its front, and hands back the rest of it.
fn take_elements<'a>(elements: &mut Vec<Fe>, piece: &'a [u8]) -> &'a [u8]
    requires ranged { All IsElement elements.old.items }
    requires room { 8 * vec_len elements.old + length piece.now ≤ 8 * vec_capacity elements.old }
    ensures ranged { All IsElement elements.new.items }
    ensures bytes { flat_map element_bytes elements.new.items ++ result.now
        ≡ flat_map element_bytes elements.old.items ++ piece.now }
    ensures count { 8 * vec_len elements.new + length result.now
        ≡ 8 * vec_len elements.old + length piece.now }
    ensures less { length result.now ≤ length piece.now }
    ensures capacity { vec_capacity elements.new ≡ vec_capacity elements.old }
{
    let mut rest = piece;
    while let Some((element, behind)) = element_at(rest) {
        elements.push_reserved(element);
        rest = behind;
    }
    rest
}

impl Held {
    ghost use Rattle.proof_frames.specs.Readings.{IsShortPlace};
    ghost use Rattle.proof_frames.specs.Rows.{row_of, told};
    ghost use Rattle.proof_frames.specs.Holding.{bytes_of, is_list, longest, IsEmpty, Holds, Steps, Runs};

    /// Nothing.
    pub(crate) fn new(alloc: Global) -> Self
        ensures { IsEmpty result }
    {
        Held {
            start: Vec::new(alloc),
            elements: Vec::new(alloc),
            part: Vec::new(alloc),
        }
    }

    /// The byte that tells the row of the frame, where one more byte may come.
    fn told_with(&self, place: Expect, byte: u8) -> u8
        ensures { result ≡ told place (self.now.start.items ++ byte ∷ []) }
    {
        let at = told_at(place);
        if at < self.start.len() {
            self.start[at]
        } else if at == self.start.len() {
            byte
        } else {
            0
        }
    }

    /// The row of the frame.
    fn row(&self, place: Expect) -> Row
        requires { IsShortPlace place }
        ensures { result ≡ row_of place (told place self.now.start.items) }
    {
        let byte = match self.start.get(told_at(place)) {
            Some(byte) => *byte,
            None => 0,
        };
        Row::at(place, byte)
    }

    /// The kind of the frame.
    pub(crate) fn kind(&self, place: Expect) -> FrameKind
        requires { Holds place self.now }
        ensures { result ≡ model.expected_kind place (bytes_of self.now) }
    {
        self.row(place).kind
    }

    /// How many bytes the frame has.
    pub(crate) fn frame_length(&self, place: Expect) -> usize
        requires { Holds place self.now }
        ensures { result ≡ model.frame_length place (bytes_of self.now) }
    {
        if self.start.len() <= told_at(place) {
            return untold_length(place);
        }
        self.row(place).length()
    }

    /// Takes a byte of a payload of elements, unless it is the last of an element that is the prime or more.
    fn take_element_byte(&mut self, place: Expect, byte: u8) -> bool
        requires holds { Holds place self.old }
        requires headed { vec_len self.old.start ≡ 5 }
        requires list { is_list (longest place) ≡ true }
        requires within { length (bytes_of self.old ++ byte ∷ [])
            ≤ model.frame_length place (bytes_of self.old ++ byte ∷ []) }
        ensures { Steps place self.old byte result self.new }
    {
        let Some(word) = completed(&self.part, byte) else {
            self.part.push_reserved(byte);
            return true;
        };
        let Some(element) = Fe::from_le(&word) else {
            return false;
        };
        self.elements.push_reserved(element);
        self.part.clear();
        true
    }

    /// Takes a byte as it comes, if the row of the frame allows it there.
    fn take_raw_byte(&mut self, place: Expect, row: Row, byte: u8) -> bool
        requires holds { Holds place self.old }
        requires row { row ≡ row_of place (told place (self.old.start.items ++ byte ∷ [])) }
        requires raw { is_list (longest place) ≡ true → vec_len self.old.start < 5 }
        requires within { length (bytes_of self.old ++ byte ∷ [])
            ≤ model.frame_length place (bytes_of self.old ++ byte ∷ []) }
        ensures { Steps place self.old byte result self.new }
    {
        if !row.slot(self.start.len()).allows(&self.start, byte) {
            return false;
        }
        self.start.push_reserved(byte);
        true
    }

    /// Takes a byte of the frame, if some frame at the place goes on with it.
    fn take_byte(&mut self, place: Expect, byte: u8) -> bool
        requires holds { Holds place self.old }
        requires within { length (bytes_of self.old ++ byte ∷ [])
            ≤ model.frame_length place (bytes_of self.old ++ byte ∷ []) }
        ensures { Steps place self.old byte result self.new }
    {
        let row = Row::at(place, self.told_with(place, byte));
        match row.payload {
            Payload::Elements { .. } if self.start.len() == 5 => {
                self.take_element_byte(place, byte)
            }
            _ => self.take_raw_byte(place, row, byte),
        }
    }

    /// Takes bytes from the front of a piece that may be any, and hands back the rest.
    fn take_free<'a>(&mut self, place: Expect, payload: Payload, piece: &'a [u8]) -> &'a [u8]
        requires holds { Holds place self.old }
        requires payload { payload ≡ (row_of place (told place self.old.start.items)).payload }
        requires raw { is_list payload ≡ false }
        requires headed { 5 ≤ vec_len self.old.start }
        requires some { 1 ≤ length piece.now }
        requires within { length (bytes_of self.old ++ piece.now)
            ≤ model.frame_length place (bytes_of self.old ++ piece.now) }
        ensures holds { Holds place self.new }
        ensures bytes { bytes_of self.new ++ result.now ≡ bytes_of self.old ++ piece.now }
        ensures less { length result.now ≤ length piece.now }
    {
        let run = payload.free_run(self.start.len() - 5).min(piece.len());
        let (front, behind) = piece.split_at(run);
        push_bytes(&mut self.start, front);
        behind
    }

    /// Takes whole elements from the front of a piece, where an element is due, or bytes that may be any, and hands back the rest.
    fn take_whole<'a>(&mut self, place: Expect, piece: &'a [u8]) -> &'a [u8]
        requires holds { Holds place self.old }
        requires within { length (bytes_of self.old ++ piece.now)
            ≤ model.frame_length place (bytes_of self.old ++ piece.now) }
        ensures holds { Holds place self.new }
        ensures bytes { bytes_of self.new ++ result.now ≡ bytes_of self.old ++ piece.now }
        ensures less { length result.now ≤ length piece.now }
    {
        if self.start.len() < 5 || !self.part.is_empty() || piece.is_empty() {
            return piece;
        }
        let payload = self.row(place).payload;
        match payload {
            Payload::Elements { .. } => take_elements(&mut self.elements, piece),
            _ => self.take_free(place, payload, piece),
        }
    }

    /// Takes a piece of the frame. If a byte of it is bad, takes those before the first bad one, and hands back its place in the
    /// piece.
    pub(crate) fn take(&mut self, place: Expect, piece: &[u8]) -> Option<usize>
        requires holds { Holds place self.old }
        requires within { length (bytes_of self.old ++ piece.now)
            ≤ model.frame_length place (bytes_of self.old ++ piece.now) }
        ensures { Runs place self.old piece.now result self.new }
    {
        let mut rest = piece;
        while let [byte, behind @ ..] = rest {
            if !self.take_byte(place, *byte) {
                return Some(piece.len() - rest.len());
            }
            rest = self.take_whole(place, behind);
        }
        None
    }

    /// Makes room for the frame at a place, of which nothing is held yet.
    pub(crate) fn reserve(&mut self, place: Expect) -> Result<(), AllocError>
        requires empty { IsEmpty self.old }
        requires short { IsShortPlace place }
        ensures empty { IsEmpty self.new }
        ensures holds { OnOk result (Holds place self.new) }
    {
        let longest = Row::at(place, 129);
        self.start.reserve(longest.raw_length())?;
        self.part.reserve(8)?;
        self.elements.reserve(longest.elements())?;
        Ok(())
    }

    /// The payload, as it came, of a frame whose header is whole.
    pub(crate) fn payload(&self) -> &[u8]
        requires { 5 ≤ vec_len self.now.start }
        ensures { result.now ≡ drop 5 self.now.start.items }
    {
        &self.start[5..]
    }

    /// Hands out the elements.
    pub(crate) fn give_elements(&mut self, alloc: Global) -> Vec<Fe>
        ensures { result ≡ self.old.elements }
    {
        mem::replace(&mut self.elements, Vec::new(alloc))
    }

    /// Forgets everything.
    pub(crate) fn clear(&mut self)
        ensures { IsEmpty self.new }
    {
        self.start.clear();
        self.elements.clear();
        self.part.clear();
    }
}
