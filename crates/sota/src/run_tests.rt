// Runs over desks and sinks in memory.
use crate::run_over;
use crate::test_files::{
    CHANGED, CHANGED_BRACKETS, FILES, ROAD_POLICY, TRIANGLE, TRIANGLE_BRACKET, TRIANGLE_POLICY,
};
use crate::test_runs::{FAULTS, Fault, LONG_RUNS, RUNS, Run};
use sota_app::Status;
use sota_edge::{Desk, MemoryDesk, MemorySink, Sink, SureDesk, SureSink};
use std::alloc::Global;
use std::test::Fail;

/// The words of a line.
fn words_of(alloc: Global, line: &str) -> Result<Vec<String>, Fail> {
    let mut words = Vec::new(alloc);
    for word in line.split_whitespace() {
        words.push(String::from_str(alloc, word)?)?;
    }
    Ok(words)
}

/// Runs the words of a line.
fn run_line<D: Desk, O: Sink>(
    alloc: Global,
    line: &str,
    desk: &mut D,
    out: &mut O,
) -> Result<Status, Fail> {
    let words = words_of(alloc, line)?;
    Ok(run_over(alloc, &words, desk, out))
}

/// More arcs from 1 to 2 than a thousand, of which the last is the fastest.
fn many_arcs(alloc: Global) -> Result<String, Fail> {
    let mut text = String::from_str(alloc, "p sp 2 1001\n")?;
    for _ in 0u32..1000 {
        text.push_str("a 1 2 9\n")?;
    }
    text.push_str("a 1 2 1\n")?;
    Ok(text)
}

/// A file with other bytes at a place, cut or filled up to a length.
fn changed(
    alloc: Global,
    file: &[u8],
    place: usize,
    bytes: &[u8],
    length: usize,
) -> Result<Vec<u8>, Fail> {
    let mut file = file.to_vec(alloc)?;
    for (index, byte) in bytes.iter().enumerate() {
        if let Some(place) = file.get_mut(place.saturating_add(index)) {
            *place = *byte;
        }
    }
    file.resize(length, 0)?;
    Ok(file)
}

/// A desk that cannot fail, and one that could.
#[derive(Drop)]
struct Desks {
    alloc: Global,
    sure: SureDesk,
    memory: MemoryDesk,
}

impl Desks {
    /// With all files of the tests. The call of this number fails.
    fn new(alloc: Global, call: u32) -> Result<Desks, Fail> {
        let mut desks = Desks {
            alloc,
            sure: SureDesk::new(alloc),
            memory: MemoryDesk::new(alloc, [call].to_vec(alloc)?),
        };
        desks.insert_files()?;
        desks.insert_changed(TRIANGLE_POLICY, &CHANGED)?;
        desks.insert_changed(TRIANGLE_BRACKET, &CHANGED_BRACKETS)?;
        desks.insert("many", many_arcs(alloc)?.as_bytes())?;
        Ok(desks)
    }

    fn insert(&mut self, name: &str, bytes: &[u8]) -> Result<(), Fail> {
        self.sure.insert(name, bytes.to_vec(self.alloc)?)?;
        self.memory.insert(name, bytes.to_vec(self.alloc)?)?;
        Ok(())
    }

    fn insert_files(&mut self) -> Result<(), Fail> {
        for (name, bytes) in FILES {
            self.insert(name, bytes)?;
        }
        Ok(())
    }

    /// A file with each of these changes.
    fn insert_changed(
        &mut self,
        file: &[u8],
        changes: &[(&str, usize, &[u8], usize)],
    ) -> Result<(), Fail> {
        for &(name, place, bytes, length) in changes {
            let bytes = changed(self.alloc, file, place, bytes, length)?;
            self.insert(name, &bytes)?;
        }
        Ok(())
    }

    /// The triangle's graph, filled up to the greatest length by a comment, and an input that is
    /// longer by one byte.
    fn insert_long(&mut self) -> Result<(), Fail> {
        let mut long = TRIANGLE.to_vec(self.alloc)?;
        long.resize(67_108_864, b'c')?;
        self.insert("whole", &long)?;
        long.push(b'c')?;
        self.insert("long", &long)
    }

    /// Whether the words of a line write this, with their status, where nothing fails: from the
    /// desk and the sink that cannot fail, and from those that could, by puts of a few bytes.
    fn writes(&mut self, line: &str, wanted: &str) -> Result<bool, Fail> {
        let mut out = SureSink::new(self.alloc);
        let status = run_line(self.alloc, line, &mut self.sure, &mut out)?;
        let mut parts = MemorySink::new(self.alloc, 7, Vec::new(self.alloc));
        let again = run_line(self.alloc, line, &mut self.memory, &mut parts)?;
        let is_said = said(self.alloc, out.written(), status)?.as_slice() == wanted.as_bytes();
        Ok(is_said && again == status && parts.written() == out.written())
    }

    /// The first of these runs that does not write what is wanted.
    fn first_other(
        &mut self,
        runs: &'static str,
        wanted: &str,
    ) -> Result<Option<&'static str>, Fail> {
        for line in runs.split("\n> ") {
            if !self.writes(line, wanted)? {
                return Ok(Some(line));
            }
        }
        Ok(None)
    }

    /// The first run of a transcript that does not go as it says.
    fn first_wrong(&mut self, transcript: &'static str) -> Result<Option<&'static str>, Fail> {
        for block in transcript.split("\n\n") {
            let Some((wanted, runs)) = block.split_once("\n> ") else {
                return Ok(Some(block));
            };
            if let Some(line) = self.first_other(runs, wanted)? {
                return Ok(Some(line));
            }
        }
        Ok(None)
    }
}

/// What was written, and the status.
fn said(alloc: Global, written: &[u8], status: Status) -> Result<Vec<u8>, Fail> {
    let mut text = written.to_vec(alloc)?;
    text.extend_from_slice(&[b'=', b' ', b'0'.wrapping_add(status.code())])?;
    Ok(text)
}

/// Whether a run writes and stores with this fault what it leaves of it.
fn fails_so(alloc: Global, run: Run, fault: Fault) -> Result<bool, Fail> {
    let (line, text) = run;
    let (call, put, chunk, length, code, is_stored) = fault;
    let mut desk = Desks::new(alloc, call)?.memory;
    let mut out = MemorySink::new(alloc, chunk.max(1), [put].to_vec(alloc)?);
    let status = run_line(alloc, line, &mut desk, &mut out)?;
    let is_begun = text.as_bytes().starts_with(out.written()) && out.written().len() == length;
    Ok(is_begun && status.code() == code && desk.held("p").is_some() == is_stored)
}

#[test]
fn runs(rt: HostRuntime) -> Result<(), Fail> {
    let mut desks = Desks::new(rt.alloc(), 0)?;
    assert_eq!(rt; desks.first_wrong(RUNS)?, None);
    assert!(rt; desks.sure.held("p.pol") == Some(TRIANGLE_POLICY));
    assert!(rt; desks.sure.held("q") == Some(ROAD_POLICY));
    assert!(rt; desks.sure.held("b") == Some(TRIANGLE_BRACKET));
    Ok(())
}

#[test]
fn inputs_of_the_greatest_length(rt: HostRuntime) -> Result<(), Fail> {
    let mut desks = Desks::new(rt.alloc(), 0)?;
    desks.insert_long()?;
    assert_eq!(rt; desks.first_wrong(LONG_RUNS)?, None);
    Ok(())
}

#[test]
fn each_call_fails(rt: HostRuntime) -> Result<(), Fail> {
    for (run, fault) in FAULTS {
        assert!(rt; fails_so(rt.alloc(), run, fault)?, "{run:?} {fault:?}");
    }
    Ok(())
}
