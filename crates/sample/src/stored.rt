// What a run has stored, byte by byte.
use crate::columns::short;
use sample_bytes::{Reader, Words, same};

// The end words.
pub const SETTLED: u8 = 0;

pub const STOPPED: u8 = 1;

// What is left to read of a run, and what its bytes stand for.
#[derive(Clone, Copy)]
pub struct Run<'a> {
    pub words: Words<'a>,
    pub bytes: Reader<'a>,
}

impl<'a> Run<'a> {
    // What the next byte stands for, where that is known.
    fn known(&mut self) -> Option<u8> {
        let words = self.words;
        self.bytes.byte().filter(|byte| words.is_known(*byte))
    }

    // The number that the next byte stands for.
    pub fn number(&mut self) -> Option<f64> {
        let byte = self.known()?;
        Some(self.words.number(byte))
    }

    // The count that it stands for, 0 where that is too large.
    pub fn limit(&mut self) -> Option<u32> {
        let byte = self.known()?;
        Some(short(self.words.value(byte)))
    }

    // Whether it stands for the number.
    pub fn is_number(&mut self, x: f64) -> Option<bool> {
        let number = self.number()?;
        Some(same(x, number))
    }

    // Whether it stands for the count.
    pub fn is_count(&mut self, n: u32) -> Option<bool> {
        let byte = self.known()?;
        Some(self.words.value(byte) == u64::from(n))
    }

    // Whether the next two are the end word and the moves.
    pub fn is_end(&mut self, word: u8, moves: u32) -> Option<bool> {
        Some(self.bytes.byte()? == word && self.is_count(moves)?)
    }

    // Whether the next bytes are the visits or lengths.
    pub fn are_places(&mut self, places: &[u16]) -> Option<bool> {
        let bytes = self.bytes.take(places.len())?;
        Some(
            bytes
                .iter()
                .zip(places)
                .all(|(&byte, &place)| u16::from(byte) == place),
        )
    }

    // Whether the next bytes stand for the ids.
    pub fn are_ids(&mut self, ids: &[u32]) -> Option<bool> {
        let words = self.words;
        let bytes = self.bytes.take(ids.len())?;
        Some(
            bytes
                .iter()
                .zip(ids)
                .all(|(&byte, &id)| words.value(byte) == u64::from(id)),
        )
    }
}
