// Output in lines.

ghost use Rattle.std.specs.Prelude.{◌≡◌, ◌<◌, ◌≤◌, ◌+◌, ◌++◌, length, drop, IsTrue, OnOk, OnErr, IsErrOf, alloc_error};
ghost use Rattle.mw_outside.specs.Count.{Rose, GrowsByFront};
ghost use Rattle.mw_outside.specs.declared.errors.WriteFault.TheVariants as fault;
ghost use Rattle.mw_console.specs.Lines.{line_length};

use mw_outside::{Sink, WriteFault, write_whole};

/// Writes a text, each line with its line feed as one piece. After an error a front of it was written. A
/// line that fails ends the writing: where the sink's count of faults rose, the answer is `Failed`.
pub fn write_lines<K: Sink>(sink: &mut K, text: &[u8]) -> Result<(), WriteFault>
    ensures ok { OnOk result
        (IsTrue K.tells → K.written sink.new ≡ K.written sink.old ++ text.now) }
    ensures front { OnErr result
        (IsTrue K.tells → GrowsByFront (K.written sink.old) (K.written sink.new) text.now) }
    ensures same_count { OnOk result (K.faults sink.new ≡ K.faults sink.old) }
    ensures memory { IsErrOf result (fault.Memory alloc_error)
        → K.faults sink.new ≡ K.faults sink.old }
    ensures failed { IsErrOf result fault.Failed → Rose (K.faults sink.old) (K.faults sink.new) }
    ensures count { K.faults sink.old ≤ K.faults sink.new }
{
    let mut done = 0;
    while done < text.len() {
        let end = line_end(text, done);
        match write_whole(sink, &text[done..end]) {
            Ok(()) => done = end,
            Err(fault) => return Err(fault),
        }
    }
    Ok(())
}

/// The place after the next line feed, or the end of the text.
fn line_end(text: &[u8], from: usize) -> usize
    requires { from < length text.now }
    ensures line { result ≡ from + line_length (drop from text.now) }
    ensures above { from < result }
    ensures within { result ≤ length text.now }
{
    let mut at = from;
    while at < text.len() && text[at] != b'\n' {
        at += 1;
    }
    if at < text.len() { at + 1 } else { at }
}
