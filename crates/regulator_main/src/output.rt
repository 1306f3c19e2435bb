ghost use Rattle.std.specs.Prelude.{◌≡◌, ◌<◌, length, take, IfErr, OnOk, OnErr};
ghost use Rattle.reg_outside.specs.Count.{Rose};
ghost use Rattle.reg_outside.specs.Told.{with_more};

use reg_outside::Sink;

/// Writes the text whole, or says how many of its bytes were written before the sink failed.
/// Takes no memory.
pub(crate) fn write_text<K: Sink>(sink: &mut K, text: &[u8]) -> Result<(), usize>
    ensures whole { OnOk result (K.written sink.new ≡ with_more (K.written sink.old) text.now) }
    ensures count { OnOk result (K.faults sink.new ≡ K.faults sink.old) }
    ensures short { IfErr result (λ kept. kept < length text.now) }
    ensures kept { IfErr result (λ kept. K.written sink.new ≡ with_more (K.written sink.old) (take kept text.now)) }
    ensures failed { OnErr result (Rose (K.faults sink.old) (K.faults sink.new)) }
{
    let mut kept = 0;
    while kept < text.len() {
        match sink.write(&text[kept..]) {
            Ok(n) => kept += n,
            Err(_) => return Err(kept),
        }
    }
    Ok(())
}
