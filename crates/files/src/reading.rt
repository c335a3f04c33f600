// How a file is read.
ghost use Rattle.std.specs.Prelude.{◌≡◌, ◌+◌, ◌<◌, ◌≤◌, [], ◌++◌, length, IfOk, OnErr, MatchResult};
ghost use Rattle.files.specs.Refusals.{number_of};
ghost use Rattle.files.specs.declared.sheet_file.FileRefusal.TheVariants.{TooLarge};

use crate::sheet_file::{FileRefusal, MOST_BYTES, SheetFile};
use bounded::Bounded;
use std::alloc::{AllocError, Global};
use std::error::Error;
use std::fmt;
use std::fs::File;
use std::io::Read;

impl FileRefusal {
    // Read by a method: `u8::from(refusal)` would not say that it is the number of a refusal.
    pub fn number(self) -> u8
        ensures { result ≡ number_of self }
    {
        self as u8
    }
}

impl fmt::Display for FileRefusal {
    fn fmt<W: fmt::Write>(&self, f: &mut fmt::Formatter<W>) -> fmt::Result {
        f.write_str(match self {
            FileRefusal::Unreadable => "a file that can be read was expected",
            FileRefusal::TooLarge => "at most 16384 bytes were expected",
        })
    }
}

impl Error for FileRefusal {}

impl SheetFile {
    // No bytes, with the memory for the largest sheet.
    pub fn new(heap: Global) -> Result<SheetFile, AllocError>
        ensures { IfOk result (λ file. file.bytes ≡ []) }
    {
        Ok(SheetFile {
            bytes: Bounded::new(heap)?,
        })
    }

    // The bytes read last.
    pub fn bytes(&self) -> &[u8]
        ensures value { result.now ≡ self.now.bytes }
        ensures bound { length result.now ≤ 16384 }
    {
        self.bytes.as_slice()
    }

    // Adds bytes behind those held, where there is room for all.
    fn add(&mut self, more: &[u8]) -> Result<(), FileRefusal>
        ensures { MatchResult result (λ _. (length self.old.bytes + length more.now ≤ 16384) × (self.new.bytes ≡ self.old.bytes ++ more.now)) (λ e. (e ≡ TooLarge) × (16384 < length self.old.bytes + length more.now) × (self.new.bytes ≡ self.old.bytes)) }
    {
        self.bytes
            .extend_from_slice(more)
            .map_err(|_| FileRefusal::TooLarge)
    }

    // Reads the rest of a file, as long as it fits. Each read but the last gives a byte at least.
    fn fill(&mut self, file: &mut File) -> Result<(), FileRefusal> {
        let mut chunk = [0; 1024];
        // Not by `read_to_end`, which may take more memory, and reports the want of it as a file that cannot be read.
        for _ in 0..=MOST_BYTES {
            let count = file.read(&mut chunk).map_err(|_| FileRefusal::Unreadable)?;
            if count == 0 {
                return Ok(());
            }
            self.add(&chunk[..count])?;
        }
        Err(FileRefusal::TooLarge)
    }

    // Reads a whole file in place of what was held; a refused file leaves no bytes.
    pub fn read(&mut self, rt: &HostRuntime, path: &str) -> Result<(), FileRefusal>
        ensures { OnErr result (self.new.bytes ≡ []) }
    {
        self.bytes.clear();
        let mut file = File::open(rt, path).map_err(|_| FileRefusal::Unreadable)?;
        let read = self.fill(&mut file);
        // no `inspect_err`: its contract does not say what the closure does to the bytes
        if read.is_err() {
            self.bytes.clear();
        }
        read
    }
}
