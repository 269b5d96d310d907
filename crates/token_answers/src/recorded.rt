// What a tape is made of, read from its text.
use crate::failure::Failure;
use crate::numbered::{escape_error, raw_kind};
use crate::words::{cut_number, number};
use questions::split_once;
use raw::EscapeError;
use std::alloc::Global;
use tape::Mark;

#[derive(Drop)]
pub struct Recorded {
    pub shebang: u32,
    pub marks: Vec<Mark>,
    pub faults: Vec<EscapeError>,
}

impl Recorded {
    pub fn read(heap: Global, text: &[u8]) -> Result<Recorded, Failure> {
        let (shebang, marks) = cut_number(text, b';')?;
        let mut recorded = Recorded {
            shebang,
            marks: Vec::new(heap),
            faults: Vec::new(heap),
        };
        if !matches!(marks, b"-") {
            recorded.read_marks(marks)?;
        }
        Ok(recorded)
    }

    fn read_marks(&mut self, text: &[u8]) -> Result<(), Failure> {
        for mark in text.split(|b| *b == b',') {
            self.read_mark(mark)?;
        }
        Ok(())
    }

    fn read_mark(&mut self, text: &[u8]) -> Result<(), Failure> {
        let (place, text) = cut_number(text, b':')?;
        let (kind, text) = cut_number(text, b':')?;
        let faults_from = self.fault_count();
        let (len, faults_to) = self.read_len_and_faults(text)?;
        self.marks.push(Mark {
            place,
            kind: raw_kind(kind),
            len,
            faults_from,
            faults_to,
        })?;
        Ok(())
    }

    // A length, and where the faults that follow it end in the column.
    fn read_len_and_faults(&mut self, text: &[u8]) -> Result<(u32, u32), Failure> {
        match split_once(text, b':') {
            Some((len, faults)) => Ok((number(len)?, self.read_faults(faults)?)),
            None => Ok((number(text)?, self.fault_count())),
        }
    }

    // Where the faults end. With an unknown one among them they end past the column, so that no tape takes their mark.
    fn read_faults(&mut self, text: &[u8]) -> Result<u32, Failure> {
        let mut known = true;
        for fault in text.split(|b| *b == b'.') {
            match escape_error(number(fault)?) {
                Some(fault) => self.faults.push(fault)?,
                None => known = false,
            }
        }
        Ok(if known { self.fault_count() } else { u32::MAX })
    }

    fn fault_count(&self) -> u32 {
        u32::try_from(self.faults.len()).unwrap_or(u32::MAX)
    }
}
