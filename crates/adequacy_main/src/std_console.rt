//! A console over any reader, as standard input.
ghost use Rattle.std.specs.Prelude.{None};
ghost use Rattle.ra_base.specs.ConsoleLines.{IsShort};

use ra_base::limits::MOST_LINE_BYTES;
use ra_base::{Console, ConsoleError, LineLog, LineNote, Text};
use std::alloc::Global;
use std::io;
use std::io::Read;

/// How many bytes are read at once.
const PIECE: usize = 4_096;

/// The most bytes that one line may take, 64 MiB: so each call of `line` ends.
const MOST_READ_BYTES: usize = 67_108_864;

/// The most bytes of a line that are kept: one more than a line may have.
const MOST_KEPT_BYTES: usize = MOST_LINE_BYTES as usize + 1;

/// Takes lines from a reader. It doesn't tell the lines that are left; it counts each failure, a line of more
/// than 64 MiB among them, and stands by what its calls have answered.
#[derive(Drop)]
pub struct StdConsole<F> {
    lines: Lines<F>,
    faults: u64,
    log: LineLog,
}

impl<F: Read> StdConsole<F> {
    /// A console over this reader.
    pub fn new(reader: F) -> StdConsole<F> {
        StdConsole {
            lines: Lines {
                reader,
                piece: [0; PIECE],
                start: 0,
                end: 0,
            },
            faults: 0,
            log: LineLog::new(),
        }
    }
}

impl<F: Read> Console for StdConsole<F> {
    ghost left = { λ _. None };

    ghost answers = { λ c. c.log.items };

    ghost faults = { λ c. c.faults };

    fn line(&mut self, alloc: Global) -> Result<Option<Text>, ConsoleError> {
        let answer = self.lines.next(alloc);
        if let Err(ConsoleError::Fault) = answer {
            self.faults = self.faults.saturating_add(1);
        }
        self.log = self.log.and(&LineNote { answer: &answer });
        answer
    }
}

// The lines of a reader.
#[derive(Drop)]
struct Lines<F> {
    reader: F,
    piece: [u8; PIECE],
    // What was read and not yet taken lies in the piece from `start` to `end`.
    start: usize,
    end: usize,
}

impl<F: Read> Lines<F> {
    // The next line without its line feed, cut where it is too long.
    fn next(&mut self, alloc: Global) -> Result<Option<Text>, ConsoleError>
        ensures { IsShort result }
    {
        let mut line = Text::new(alloc);
        let mut taken: usize = 0;
        for _ in 0..u64::MAX {
            let Some(rest) = self.piece.get(self.start..self.end) else {
                return Err(ConsoleError::Fault);
            };
            if rest.is_empty() {
                match self.fill() {
                    Ok(0) if taken == 0 => return Ok(None),
                    Ok(0) => return cut(alloc, &line),
                    Ok(_) => continue,
                    Err(error) => return Err(error),
                }
            }
            let end = rest.iter().position(|byte| *byte == b'\n');
            let count = end.unwrap_or(rest.len());
            taken = taken.saturating_add(count);
            if taken > MOST_READ_BYTES {
                return Err(ConsoleError::Fault);
            }
            keep(&mut line, &rest[..count])?;
            self.start = self
                .start
                .saturating_add(count)
                .saturating_add(usize::from(end.is_some()));
            if end.is_some() {
                return cut(alloc, &line);
            }
        }
        Err(ConsoleError::Fault)
    }

    // Reads the next piece and tells how many bytes it has; none is the end of the input.
    fn fill(&mut self) -> Result<usize, ConsoleError> {
        for _ in 0..u64::MAX {
            match self.reader.read(&mut self.piece) {
                Ok(count) => {
                    self.start = 0;
                    self.end = count;
                    return Ok(count);
                }
                Err(error) if error.kind() == io::ErrorKind::Interrupted => {}
                Err(error) if error.kind() == io::ErrorKind::OutOfMemory => {
                    return Err(ConsoleError::OutOfMemory);
                }
                Err(_) => return Err(ConsoleError::Fault),
            }
        }
        Err(ConsoleError::Fault)
    }
}

// Appends what is kept of a line's next bytes.
fn keep(line: &mut Text, bytes: &[u8]) -> Result<(), ConsoleError> {
    let room = MOST_KEPT_BYTES.saturating_sub(line.bytes().len());
    line.push(&bytes[..bytes.len().min(room)])
        .map_err(|_| ConsoleError::OutOfMemory)
}

// A line as it is answered.
fn cut(alloc: Global, line: &Text) -> Result<Option<Text>, ConsoleError>
    ensures { IsShort result }
{
    let bytes = line.bytes();
    let mut text = Text::new(alloc);
    match text.push(&bytes[..bytes.len().min(MOST_KEPT_BYTES)]) {
        Ok(()) => Ok(Some(text)),
        Err(_) => Err(ConsoleError::OutOfMemory),
    }
}
