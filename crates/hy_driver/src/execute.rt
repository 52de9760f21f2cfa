// The execution of object files.
ghost use Rattle.std.specs.Prelude.{◌≡◌, ◌-◌, ◌^◌, ◌<◌, ◌≤◌, IfOk};
ghost use Rattle.hy_checked.specs.Endings.{stop_of, counts_of};
ghost use Rattle.hy_object.specs.States.{Ended};
ghost use Rattle.hy_driver.specs.Call.{streams_seen};
ghost use Rattle.hy_driver.specs.Course.{answer, bare, IsEither, FileMayAnswer, stopped_answer};
ghost use Rattle.hy_driver.specs.Reply.{answer_of};
ghost use Rattle.hy_driver.specs.Executed.{IsFileOf, stop_message, lines_of};
ghost use Rattle.hy_driver.specs.Kept.{status_of_stop};
ghost use Rattle.hy_driver.specs.Message.{bytes_of_message};
ghost use Rattle.hy_driver.specs.Texts.{bad_object_message, out_of_memory};

use crate::message::{self, Message, OUT_OF_MEMORY};
use crate::reply::{Reply, Report, bare, cut_off, ran_out_of_memory, with_message};
use hy_base::{Counts, End, NO_COUNTS, NoMemory, Sink, Source};
use hy_checked::{CheckedEnding, exec};
use hy_object::{Object, ObjectFault, decode};
use hy_words::Options;
use std::alloc::Global;

/// The most bytes that an object file has.
pub const LONGEST_OBJECT: u32 = 268_435_456;

// The status, the message and the lines for a run that came to its end.
#[derive(Drop)]
pub struct EndReply {
    pub status: u8,
    pub message: Message,
    pub lines: Message,
}

fn counts_of(ending: CheckedEnding) -> Counts
    ensures { result ≡ counts_of ending }
{
    match ending {
        CheckedEnding::Ended(ending) => ending.counts,
        CheckedEnding::Stuck(_, _, counts) => counts,
    }
}

fn status_of(ending: CheckedEnding) -> u8
    ensures { result ≡ status_of_stop (stop_of ending) }
{
    match ending {
        CheckedEnding::Ended(ending) => match ending.end {
            End::Done => 0,
            End::Trap(_, _) => 3,
            End::Spent => 4,
            End::Asks => 4,
        },
        CheckedEnding::Stuck(_, _, _) => 9,
    }
}

fn message_of_end(alloc: Global, file: &str, turns: u64, end: End) -> Result<Message, NoMemory>
    ensures { IfOk result (λ message. bytes_of_message message ≡ stop_message file.now turns (Ended end)) }
{
    match end {
        End::Done => Ok(Message::Silent),
        End::Trap(kind, span) => {
            let text = message::trapped_in_object(alloc, file, kind, span)?;
            Ok(Message::Owned(text))
        }
        End::Spent => {
            let text = message::spent(alloc, turns)?;
            Ok(Message::Owned(text))
        }
        End::Asks => {
            let text = message::spent(alloc, turns)?;
            Ok(Message::Owned(text))
        }
    }
}

fn message_of(
    alloc: Global,
    file: &str,
    turns: u64,
    ending: CheckedEnding,
) -> Result<Message, NoMemory>
    ensures { IfOk result (λ message. bytes_of_message message ≡ stop_message file.now turns (stop_of ending)) }
{
    match ending {
        CheckedEnding::Ended(ending) => message_of_end(alloc, file, turns, ending.end),
        CheckedEnding::Stuck(kind, at, _) => {
            let text = message::stuck(alloc, file, kind, at)?;
            Ok(Message::Owned(text))
        }
    }
}

// The lines of the counts, where they are asked for.
fn lines_of(alloc: Global, report: bool, counts: Counts) -> Result<Message, NoMemory>
    ensures { IfOk result (λ lines. bytes_of_message lines ≡ lines_of report counts) }
{
    if !report {
        return Ok(Message::Silent);
    }
    let text = message::counted(alloc, counts)?;
    Ok(Message::Owned(text))
}

fn reply_to_end(
    alloc: Global,
    file: &str,
    options: Options,
    ending: CheckedEnding,
) -> Result<EndReply, NoMemory>
    ensures status { IfOk result (λ reply. reply.status ≡ status_of_stop (stop_of ending)) }
    ensures message { IfOk result (λ reply. bytes_of_message reply.message ≡ stop_message file.now options.turns (stop_of ending)) }
    ensures lines { IfOk result (λ reply. bytes_of_message reply.lines ≡ lines_of options.report (counts_of ending)) }
{
    let message = message_of(alloc, file, options.turns, ending)?;
    let lines = lines_of(alloc, options.report, counts_of(ending))?;
    Ok(EndReply {
        status: status_of(ending),
        message,
        lines,
    })
}

// A run that came to its end.
fn stop(alloc: Global, file: &str, options: Options, bytes: Vec<u8>, ending: CheckedEnding) -> Reply
    ensures { IsEither (answer_of result) (stopped_answer file.now options bytes.items (stop_of ending) (counts_of ending))
        (answer 8 out_of_memory bytes.items (counts_of ending)) }
{
    let counts = counts_of(ending);
    match reply_to_end(alloc, file, options, ending) {
        Ok(reply) => Reply {
            report: Report {
                status: reply.status,
                object: bytes,
                counts,
            },
            message: reply.message,
            lines: reply.lines,
        },
        Err(_) => ran_out_of_memory(bytes, counts),
    }
}

// A file that is no object's.
fn refuse(alloc: Global, file: &str, place: u64) -> Reply
    ensures { IsEither (answer_of result) (bare 10 (bad_object_message file.now place)) (bare 8 out_of_memory) }
{
    let text = message::bad_object(alloc, file, place);
    with_message(10, Vec::new(alloc), NO_COUNTS, text)
}

// Runs the object of a file.
fn run_object<I: Source, K: Sink>(
    alloc: Global,
    file: &str,
    options: Options,
    bytes: Vec<u8>,
    object: Object,
    input: &mut I,
    out: &mut K,
) -> Reply
    requires file { IsFileOf bytes.items object }
    requires turns { options.turns ≤ 2 ^ 32 }
    requires input_faults { I.faults input.old < 2 ^ 64 - 2 }
    requires out_faults { K.faults out.old < 2 ^ 64 - 2 }
    ensures { FileMayAnswer file.now bytes.items options (streams_seen I.Source K.Sink input.old out.old)
        (streams_seen I.Source K.Sink input.new out.new) (answer_of result) }
{
    match exec(alloc, &object, input, out, options.turns) {
        Ok(ending) => stop(alloc, file, options, bytes, ending),
        Err(fault) => cut_off(bytes, fault),
    }
}

/// Decodes these bytes of a file and runs what they spell. Bytes that are too many are not looked at.
pub fn execute_file<I: Source, K: Sink>(
    alloc: Global,
    file: &str,
    options: Options,
    bytes: Vec<u8>,
    input: &mut I,
    out: &mut K,
) -> Reply
    requires turns { options.turns ≤ 2 ^ 32 }
    requires input_faults { I.faults input.old < 2 ^ 64 - 2 }
    requires out_faults { K.faults out.old < 2 ^ 64 - 2 }
    ensures { FileMayAnswer file.now bytes.items options (streams_seen I.Source K.Sink input.old out.old)
        (streams_seen I.Source K.Sink input.new out.new) (answer_of result) }
{
    if bytes.len() > LONGEST_OBJECT as usize {
        return refuse(alloc, file, u64::from(LONGEST_OBJECT));
    }
    match decode(alloc, &bytes) {
        Ok(object) => run_object(alloc, file, options, bytes, object, input, out),
        Err(ObjectFault::Bad(place)) => refuse(alloc, file, place),
        Err(ObjectFault::NoMemory) => bare(alloc, 8, OUT_OF_MEMORY),
    }
}
