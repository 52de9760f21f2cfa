// Calls over objects of which it is known that none fails.
ghost use Rattle.std.specs.Prelude.{◌≡◌, ◌≢◌, ◌-◌, ◌^◌, ◌<◌, ℕ, List, [], map, string_bytes, Some};
ghost use Rattle.hy_base.specs.Contents.{files_failing};
ghost use Rattle.hy_base.specs.Files.{IsHolding};
ghost use Rattle.hy_words.specs.Asked.{Asked, file_of};
ghost use Rattle.hy_words.specs.Commands.{command_of};

use hy_base::{Files, MemFiles, PlainFiles, PlainSink, PlainSource, Sink, Source};
use hy_driver::{Report, hyloc};
use std::alloc::Global;

/// A call over objects that never fail: none of the statuses of a fault comes.
pub fn call_over_plain_objects(
    alloc: Global,
    words: &[String],
    files: &mut PlainFiles,
    input: &mut PlainSource,
    out: &mut PlainSink,
    err: &mut PlainSink,
) -> Report
    ensures files { result.status ≢ 5 }
    ensures input { result.status ≢ 6 }
    ensures output { result.status ≢ 7 }
{
    hyloc(alloc, words, files, input, out, err)
}

/// A call over files in memory none of whose calls is told to fail, and which have the file that is asked for: that the files
/// failed is not answered.
pub fn call_over_files_that_work<I: Source, K: Sink, E: Sink>(
    alloc: Global,
    words: &[String],
    files: &mut MemFiles,
    input: &mut I,
    out: &mut K,
    err: &mut E,
) -> Report
    requires there { (asked : Asked) → command_of (map string_bytes words.now) ≡ Some asked
        → IsHolding (⟦<MemFiles as Files>⟧.holds files.old (file_of asked)) }
    requires failing { files_failing files.old ≡ [] }
    requires file_faults { ⟦<MemFiles as Files>⟧.faults files.old < 2 ^ 64 - 2 }
    requires input_faults { I.faults input.old < 2 ^ 64 - 2 }
    requires out_faults { K.faults out.old < 2 ^ 64 - 2 }
    requires err_faults { E.faults err.old < 2 ^ 64 - 2 }
    ensures { result.status ≢ 5 }
{
    hyloc(alloc, words, files, input, out, err)
}
