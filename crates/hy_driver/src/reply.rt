// What a call answers, and how its message is written.
ghost use Rattle.std.specs.Prelude.{◌≡◌, ◌≢◌, ◌-◌, ◌^◌, ◌<◌, [], string_bytes, MatchResult, OnErr};
ghost use Rattle.hy_base.specs.Outside.{faults_after, StillTells};
ghost use Rattle.hy_base.specs.Streams.{Puts};
ghost use Rattle.hy_driver.specs.Call.{messages_seen};
ghost use Rattle.hy_driver.specs.Course.{answer, bare, cause_message};
ghost use Rattle.hy_driver.specs.Kept.{cause_status};
ghost use Rattle.hy_driver.specs.Reply.{answer_of};
ghost use Rattle.hy_driver.specs.Reported.{IsReported};
ghost use Rattle.hy_driver.specs.Message.{bytes_of_message};
ghost use Rattle.hy_driver.specs.Texts.{out_of_memory};

use crate::message::{INPUT_FAULT, Message, OUT_OF_MEMORY, OUTPUT_FAULT};
use hy_base::{Counts, Failed, NO_COUNTS, NoMemory, RunCause, RunFault, Sink};
use std::alloc::Global;

/// What a call answers: its status, as `README.md` lists them; the bytes of the object once it is made, or once it is
/// decoded; what its run counted.
#[derive(Debug, Drop)]
pub struct Report {
    pub status: u8,
    pub object: Vec<u8>,
    pub counts: Counts,
}

/// A report, with its message, and the lines of its counts, where these were asked for.
#[derive(Drop)]
pub struct Reply {
    pub report: Report,
    pub message: Message,
    pub lines: Message,
}

/// A report with its message alone.
pub fn answered(status: u8, object: Vec<u8>, counts: Counts, message: Message) -> Reply
    ensures { answer_of result ≡ answer status (bytes_of_message message) object.items counts }
{
    Reply {
        report: Report {
            status,
            object,
            counts,
        },
        message,
        lines: Message::Silent,
    }
}

/// A report of a call that made nothing.
pub fn bare(alloc: Global, status: u8, text: &'static str) -> Reply
    ensures { answer_of result ≡ bare status text.now }
{
    answered(status, Vec::new(alloc), NO_COUNTS, Message::Fixed(text))
}

/// The call ran out of memory.
pub fn ran_out_of_memory(object: Vec<u8>, counts: Counts) -> Reply
    ensures { answer_of result ≡ answer 8 out_of_memory object.items counts }
{
    answered(8, object, counts, Message::Fixed(OUT_OF_MEMORY))
}

/// A report with the message that was made for it; where there was no memory for the message, the report of that.
pub fn with_message(
    status: u8,
    object: Vec<u8>,
    counts: Counts,
    message: Result<String, NoMemory>,
) -> Reply
    ensures { MatchResult message (λ text. answer_of result ≡ answer status (string_bytes text) object.items counts) (λ _.
        answer_of result ≡ answer 8 out_of_memory object.items counts) }
{
    match message {
        Ok(text) => answered(status, object, counts, Message::Owned(text)),
        Err(_) => ran_out_of_memory(object, counts),
    }
}

/// A run that was cut off.
pub fn cut_off(object: Vec<u8>, fault: RunFault) -> Reply
    ensures { answer_of result ≡ answer (cause_status fault.cause) (cause_message fault.cause) object.items fault.counts }
{
    let (status, text) = match fault.cause {
        RunCause::Input => (6, INPUT_FAULT),
        RunCause::Output => (7, OUTPUT_FAULT),
        RunCause::NoMemory => (8, OUT_OF_MEMORY),
    };
    answered(status, object, fault.counts, Message::Fixed(text))
}

// Writes a message, if there is one.
fn write_message<E: Sink>(err: &mut E, message: &Message) -> Result<(), Failed>
    requires { E.faults err.old < 2 ^ 64 - 1 }
    ensures faults { E.faults err.new ≡ faults_after (E.faults err.old) result }
    ensures bytes { StillTells (E.tells err.old) (E.tells err.new) (Puts (bytes_of_message message.now) result) }
    ensures some { OnErr result (bytes_of_message message.now ≢ []) }
{
    let bytes = message.as_bytes();
    if bytes.is_empty() {
        return Ok(());
    }
    err.put(bytes)
}

// A report of a call whose message failed.
fn output_failed(report: Report) -> Report
    ensures status { result.status ≡ 7 }
    ensures object { result.object.items ≡ report.object.items }
    ensures counts { result.counts ≡ report.counts }
{
    Report {
        status: 7,
        ..report
    }
}

/// Writes the message, then the lines, and gives the report. A message that fails is followed by nothing; lines
/// that fail are followed by a message only where there was none before them.
pub fn write_reply<E: Sink>(err: &mut E, reply: Reply) -> Report
    requires { E.faults err.old < 2 ^ 64 - 2 }
    ensures { IsReported (answer_of reply) (messages_seen E.Sink err.old) (messages_seen E.Sink err.new) result }
{
    let Reply {
        report,
        message,
        lines,
    } = reply;
    let Ok(()) = write_message(err, &message) else {
        // Nothing follows a message that fails.
        return output_failed(report);
    };
    let Err(_) = write_message(err, &lines) else {
        return report;
    };
    if !message.as_bytes().is_empty() {
        return output_failed(report);
    }
    let _ = err.put(OUTPUT_FAULT.as_bytes());
    output_failed(report)
}
