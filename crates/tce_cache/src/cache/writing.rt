// Writing marked tiles back to their files.
ghost use Rattle.std.specs.Prelude.{◌≡◌, ◌+◌, ◌^◌, ◌<◌, ◌≤◌, length, IfOk, OnOk, IsErr, IsTrue};
ghost use Rattle.std.specs.Option.{ForSome};
ghost use Rattle.tce_outside.specs.Fault.{FaultReported};
ghost use Rattle.tce_cache.specs.Frames.{HasTile, IsCleaned};

use super::Cache;
use crate::transfer::{Span, write_words};
use tce_outside::{Disk, Failed};
use tce_words::Words;

// Marked tiles that follow one another in an array's file, in frames that follow one another.
#[derive(Clone, Copy)]
struct Run {
    array: u8,
    tile: u64,
    frame: usize,
    n: usize,
}

impl Cache {
    ghost use Rattle.tce_cache.specs.Cache.{IsCache, IsReady, HasRoom, OnlyWritableDiffers};
    ghost use Rattle.tce_cache.specs.Touch.{KeepsArrays, with_held, all_unmarked, AreWritten};
    ghost use Rattle.tce_cache.specs.Runs.{IsRun, run_of, run_cleaned, AreCleaned, WritesRun};

    // Whether the frame behind a run holds the marked tile that follows it in the file, and no words stand between.
    fn goes_on(&self, run: Run) -> bool
        requires { IsRun self.now run }
        ensures { IsTrue result → IsRun self.now (run_of run (run.n + 1)) }
    {
        let len = self.table.len();
        let next = run.frame + run.n;
        let array = &self.arrays[run.array as usize];
        if next >= len || array.shape.tile_words() != self.frame_words {
            return false;
        }
        let held = self.table.frame(next);
        if !held.marked || held.array != run.array {
            return false;
        }
        held.tile == run.tile + run.n as u64
    }

    // The run that begins as this one and has as many tiles as it can, at most so many.
    fn longest(&self, first: Run, most: usize) -> Run
        requires run { IsRun self.now first }
        requires most { first.n ≤ most }
        ensures run { IsRun self.now result }
        ensures begins { result ≡ run_of first result.n }
        ensures few { result.n ≤ most }
    {
        let mut run = first;
        while run.n < most && self.goes_on(run) {
            run.n += 1;
        }
        run
    }

    // Writes the tiles of a run from their frames to their file.
    fn write_run<D: Disk>(&mut self, disk: &mut D, words: &Words, run: Run) -> Result<(), Failed>
        requires run { IsRun self.old run }
        requires room { HasRoom self.old words.now }
        requires bounded { length words.now < 2 ^ 60 }
        requires ready { ForSome (D.files disk.old) (λ fs. IsReady self.old fs words.now) }
        ensures cache { self.new ≡ self.old }
        ensures written { OnOk result (WritesRun self.old (D.files disk.old) (D.files disk.new)
            words.now run) }
        ensures others { OnlyWritableDiffers self.old (D.files disk.old) (D.files disk.new) }
        ensures fault_reported { FaultReported D.faults disk.old disk.new (IsErr result) }
    {
        let at = self.place(run.frame);
        let array = &self.arrays[run.array as usize];
        let n = array.shape.tile_words();
        let span = Span {
            from: n * run.tile,
            at,
            n: n * run.n as u64,
        };
        write_words(disk, array, span, words, self.buffer.as_mut_slice())?;
        Ok(())
    }

    // Takes the mark of a frame's tile away.
    fn clean(&mut self, frame: usize)
        requires { HasTile frame self.old.held }
        ensures cleaned { IsCleaned frame self.old.held self.new.held }
        ensures same { self.new ≡ with_held self.old self.new.held self.old.touches }
        ensures cache { IsCache self.new }
    {
        self.table.clean(frame);
    }

    // Takes the marks of a run's tiles away.
    fn clean_run(&mut self, run: Run)
        requires cache { IsCache self.old }
        requires run { IsRun self.old run }
        ensures cleaned { self.new ≡ with_held self.old
            (run_cleaned run.array run.tile run.n self.old.held) self.old.touches }
        ensures cache { IsCache self.new }
    {
        // The frames that hold tiles are the first ones.
        let _len = self.table.len();
        for k in 0..run.n {
            self.clean(run.frame + k);
        }
    }

    // Writes the tile of a frame to its file, if it is marked, and in the same span those that follow it in the file
    // and in the frames, in all at most so many. Takes their marks away, and answers how many frames these are.
    pub(super) fn write_back<D: Disk>(
        &mut self,
        disk: &mut D,
        words: &Words,
        frame: usize,
        most: usize,
    ) -> Result<usize, Failed>
        requires frame { frame < length self.old.held }
        requires most { 0 < most }
        requires room { HasRoom self.old words.now }
        requires bounded { length words.now < 2 ^ 60 }
        requires ready { ForSome (D.files disk.old) (λ fs. IsReady self.old fs words.now) }
        ensures cleaned { IfOk result (λ n. AreCleaned frame n self.old.held self.new.held) }
        ensures few { IfOk result (λ n. (0 < n) × (n ≤ most)) }
        ensures same { self.new ≡ with_held self.old self.new.held self.old.touches }
        ensures arrays { OnOk result (KeepsArrays self.old self.new
            (D.files disk.old) (D.files disk.new) words.now words.now) }
        ensures cache { IsCache self.new }
        ensures others { OnlyWritableDiffers self.old (D.files disk.old) (D.files disk.new) }
        ensures fault_reported { FaultReported D.faults disk.old disk.new (IsErr result) }
    {
        let held = self.table.frame(frame);
        if !held.marked {
            return Ok(1);
        }
        let first = Run {
            array: held.array,
            tile: held.tile,
            frame,
            n: 1,
        };
        let run = self.longest(first, most);
        self.write_run(disk, words, run)?;
        self.clean_run(run);
        Ok(run.n)
    }

    /// Writes each tile that is marked to its file, and takes all marks away.
    pub fn flush<D: Disk>(&mut self, disk: &mut D, words: &Words) -> Result<(), Failed>
        requires room { HasRoom self.old words.now }
        requires ready { ForSome (D.files disk.old) (λ fs. IsReady self.old fs words.now) }
        ensures flushed { OnOk result (self.new ≡ all_unmarked self.old) }
        ensures arrays { OnOk result (KeepsArrays self.old self.new
            (D.files disk.old) (D.files disk.new) words.now words.now) }
        ensures written { OnOk result (AreWritten self.old (D.files disk.old) (D.files disk.new)
            words.now) }
        ensures same { self.new ≡ with_held self.old self.new.held self.old.touches }
        ensures cache { IsCache self.new }
        ensures others { OnlyWritableDiffers self.old (D.files disk.old) (D.files disk.new) }
        ensures fault_reported { FaultReported D.faults disk.old disk.new (IsErr result) }
    {
        // The length of the block bounds all places.
        let _len = words.len();
        let len = self.table.len();
        let mut frame = 0;
        while frame < len {
            frame += self.write_back(disk, words, frame, len)?;
        }
        Ok(())
    }
}
