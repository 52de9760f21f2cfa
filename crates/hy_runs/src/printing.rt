// Lines of output.
ghost use Rattle.std.specs.Prelude.{◌≡◌, ◌-◌, ◌^◌, ◌<◌, string_bytes, IfOk};
ghost use Rattle.hy_object.specs.Words.{line_of};
ghost use Rattle.hy_runs.specs.Lines.{Prints, out_faults_after};

use hy_base::{RunCause, Sink};
use hy_object::Shown;
use std::alloc::{AllocError, Global};

/// Writes a word as a line, in one piece. Where memory runs out for the piece, nothing is written.
pub fn put_line<K: Sink>(alloc: Global, shown: Shown, n: i64, out: &mut K) -> Result<(), RunCause>
    requires { K.faults out.old < 2 ^ 64 - 1 }

    ensures prints { Prints shown n (K.tells out.old) (K.tells out.new) result }
    ensures faults { K.faults out.new ≡ out_faults_after (K.faults out.old) result }
{
    let Ok(line) = line_of(alloc, shown, n) else {
        return Err(RunCause::NoMemory);
    };
    match out.put(line.as_bytes()) {
        Ok(()) => Ok(()),
        Err(_) => Err(RunCause::Output),
    }
}

fn line_of(alloc: Global, shown: Shown, n: i64) -> Result<String, AllocError>
    ensures { IfOk result (λ line. string_bytes line ≡ line_of shown n) }
{
    match shown {
        Shown::Int => {
            let mut line = n.to_string(alloc)?;
            line.push_str("\n")?;
            Ok(line)
        }
        Shown::Bool if n == 0 => String::from_str(alloc, "false\n"),
        Shown::Bool => String::from_str(alloc, "true\n"),
    }
}
